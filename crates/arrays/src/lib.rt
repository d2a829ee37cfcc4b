// What placing works on, read and written in one place each: short lists and the slots of a schedule.
// Nowhere else in placing is an index of a slot computed.
#![tactic(auto)]

pub mod frames;
pub mod lists;
