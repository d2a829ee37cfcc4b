// Document 01's words, as every layer above uses them: tables of cells, lines and their slacks, what is refused, the rules, the checks of N and L.
#![tactic(auto)]

pub mod checks;
pub mod lines;
pub mod refusals;
pub mod rules;
pub mod tables;
