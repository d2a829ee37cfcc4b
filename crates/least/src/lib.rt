// The least rule: a greatest withdrawn matrix, and what is kept of a demand given it.
#![tactic(auto)]

pub mod kept;
pub mod withdrawn;
