// Pairing each destination with a source of its own, among the sources that it may hear: as many as can be, from the pairs there are.
// `may` has for each destination the set of the sources that it may hear, `source` for each destination its source, and `destination`
// for each source its destination, or n for none, since an Option of a byte takes two bytes of the stack, which is measured.
#![tactic(auto)]

mod flip;
pub mod free;
pub mod matching;
mod search;
