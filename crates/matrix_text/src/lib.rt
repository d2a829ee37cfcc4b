// The matrix program's work: from the bytes that it reads to the bytes that it writes.
#![tactic(auto)]

pub mod answers;
mod text;
