// Who can give more, and who takes, as sets of nodes: `offers` has for each column the rows that can give it more, `takers` for each row the columns that
// take from it. They are two parameters throughout: `fill` takes lists of any length, which a pair of arrays would not be; and of a struct of two borrowed
// lists each contract would have to say that it still borrows the same two.
ghost use Rattle.std.specs.Prelude.{ℕ, ◌+◌, ◌≤◌, List, length};
ghost use Rattle.star.specs.Rooms.{Square};
ghost use Rattle.growth.specs.Sides.{Sides, OpenLines, CanMore, CanLess, More, Less};

use star::tables::{get, put};

// The open lines, those with headroom, of the n lines from line `from` on.
pub fn open_lines(n: usize, headroom: &[u32], from: usize) -> u64
    requires { (n ≤ 64) × (from + n ≤ length headroom.now) }
    ensures { OpenLines n headroom.now from result }
{
    let mut s = nodes::none();
    for k in 0..n {
        s = nodes::with_where(s, k, headroom[from + k] > 0);
    }
    s
}

// Row i gives x more to column j.
pub fn more(
    n: usize,
    bound: &[u32],
    a: &mut [u32],
    offers: &mut [u64],
    takers: &mut [u64],
    i: usize,
    j: usize,
    x: u32,
)
    requires sides { Sides n bound.now a.old offers.old takers.old }
    requires can_more { CanMore n bound.now a.old i j x }
    ensures { More n bound.now a.old a.new offers.new takers.new i j x }
{
    let most = get(n, bound, i, j);
    let y = get(n, a, i, j) + x;
    put(n, a, i, j, y);
    takers[i] = nodes::with(takers[i], j);
    if y < most {
        return;
    }
    offers[j] = nodes::without(offers[j], i);
}

// Row i gives x less to column j.
pub fn less(
    n: usize,
    a: &mut [u32],
    offers: &mut [u64],
    takers: &mut [u64],
    i: usize,
    j: usize,
    x: u32,
)
    requires square { (Square n a.old) × (n ≤ length offers.old) × (n ≤ length takers.old) }
    requires can_less { CanLess n a.old i j x }
    ensures { (bound : List ℕ) → Sides n bound a.old offers.old takers.old → Less n bound a.old a.new offers.new takers.new i j x }
{
    let y = get(n, a, i, j) - x;
    put(n, a, i, j, y);
    offers[j] = nodes::with(offers[j], i);
    if y > 0 {
        return;
    }
    takers[i] = nodes::without(takers[i], j);
}
