// What each call of a run answers, on the record's values and the tables: the checks, what the tables hold then (`.._on`), and what an accepted
// call puts in the record (`started`, `.._after`).
#![tactic(auto)]

mod checks;
pub mod frame;
pub mod fresh;
pub mod post;
pub mod record;
