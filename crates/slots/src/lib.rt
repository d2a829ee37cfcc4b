// Placing a kept matrix into the frame with few reconfigurations. The matrix is padded with idle slots until every
// line has the sum R, the largest line sum. While slots are left, all destinations are paired with sources on pairs that still get at
// least `level` slots, and the pairing is held for as many slots as each of its pairs allows; where no such pairing is, the level falls,
// and at level 1 there always is one. Slots fill in order, so none is ever searched for; those after R are idle.
//
// Working memory: the lent kept table, which is at the end as it was, and lists on the stack. Those are 704 bytes while slots are placed, 512 more
// while the sets of a level are made or 64 more while nodes are paired, and before that 512 while lines are padded.
#![tactic(auto)]

pub mod placing;
mod rounds;
mod writing;
