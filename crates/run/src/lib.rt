// A run with queues: the entries that start it, post arrivals to it and send a frame of it, its record lent by the caller. Each is thin: it copies
// the record out, and functions on its values and the tables say what happens and what an accepted call puts in the record.
#![tactic(auto)]

pub mod frame;
pub mod fresh;
pub mod post;
