// The books of a run's pairs, what was posted, sent and dropped beside what waits: whether they agree, and how a post and a frame change them.
#![tactic(auto)]

pub mod agreement;
pub mod amounts;
pub mod queues;
