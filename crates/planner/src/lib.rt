// The entry `plan`: what each pair keeps of its demand, and how the frame carries it.
#![tactic(auto)]

pub mod answers;
pub mod checks;
mod kept;
pub mod plans;
