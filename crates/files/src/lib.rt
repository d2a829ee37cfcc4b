// Scenario files: bytes in, what the table says or a refusal out. Cells are read where they stand; nothing is copied.
#![tactic(auto)]

pub mod kinds;
pub mod numbers;
pub mod reading;
