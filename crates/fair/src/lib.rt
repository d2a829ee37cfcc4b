// The fair rule: of the lines above their capacity the one with the smallest fraction (c−b)/a, c its capacity, is cut, again and again, until none is left.
#![tactic(auto)]

mod choice;
mod line;
mod rule;

pub use rule::cut;
