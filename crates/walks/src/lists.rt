// What walks read and write: who can give more and who takes, and a path.

// Who can give more, and who takes: for each column the rows that can give it more, for each row the columns that take from it.
#[derive(Drop)]
pub struct Partners {
    pub offers: [u64; 64],
    pub takers: [u64; 64],
}

// The steps of a path: at layer k from row at[k] to column to[k].
#[derive(Drop)]
pub struct Steps {
    pub at: [u8; 65],
    pub to: [u8; 65],
}
