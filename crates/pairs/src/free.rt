// The free nodes: the sources that have no destination, and the destinations that have no source.
#[derive(Drop)]
pub struct Free {
    pub sources: u64,
    pub destinations: u64,
}
