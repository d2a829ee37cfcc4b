// Moving sources along a way.
ghost use Rattle.pairs.specs.Ways.{MayFlip, Flips};

use arrays::lists;

// Gives source r the destination that it can move to, that destination's source the next, and so on to a destination that had none,
// which is the answer.
pub fn flip(n: usize, source: &mut [u8], destination: &mut [u8], next: &[u8], r: usize) -> usize
    requires { MayFlip n source.old destination.old next.now r }
    ensures { Flips n source.old destination.old next.now source.new destination.new r result }
{
    let mut i = r;
    let mut j = n;
    while i < n {
        j = lists::byte(next, i);
        let moved = lists::byte(source, j);
        lists::put_byte(source, j, i);
        lists::put_byte(destination, i, j);
        i = moved;
    }
    j
}
