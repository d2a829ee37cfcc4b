// A path through the layers, and what goes along it. At layer k it leads from row at[k] to column to[k], which the row can give more, and that column takes
// from row at[k + 1].
#![tactic(auto)]

mod climb;
pub mod lists;
mod send;
pub mod walk;
