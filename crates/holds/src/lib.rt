// Which setting of the switch comes next, and for how many slots it is held. What to do with a setting is the caller's: it may write slots or
// a list of settings. `source` has each destination's source, and `destination` each source's destination.
#![tactic(auto)]

mod levels;
mod settings;
pub mod turns;
