// A matrix that grows below bounds while its lines have headroom.
#![tactic(auto)]

pub mod fill;
pub mod sides;
