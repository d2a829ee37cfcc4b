// A first matrix: each column takes what the bounds and the headroom of its rows allow. Column j begins at row j, so that the columns do not all spend the
// first rows' headroom.
ghost use Rattle.std.specs.Prelude.{◌*◌, ◌<◌, ◌≤◌, length};
ghost use Rattle.growth.specs.Sides.{Sides, Grew, GrewAt};

use crate::sides::more;
use star::tables::get;

// Row i gives column j what their bound, the row's headroom and what the column wants allow. Gives how much that is.
fn fill_at(
    n: usize,
    bound: &[u32],
    a: &mut [u32],
    headroom: &mut [u32],
    offers: &mut [u64],
    takers: &mut [u64],
    i: usize,
    j: usize,
    want: u32,
) -> u32
    requires sides { Sides n bound.now a.old offers.old takers.old }
    requires room { (2 * n ≤ length headroom.old) × (i < n) × (j < n) }
    ensures { GrewAt n bound.now a.old headroom.old a.new headroom.new offers.new takers.new i j want result }
{
    let spare = get(n, bound, i, j) - get(n, a, i, j);
    let x = spare.min(headroom[i]).min(want);
    if x == 0 {
        return 0;
    }
    more(n, bound, a, offers, takers, i, j, x);
    headroom[i] -= x;
    x
}

// Column j takes from some rows while it has headroom. Says which rows may still have headroom, of those that may have had.
#[tactic(auto, using(crate::proofs::SetLaws::left_falls))]
fn fill_some(
    n: usize,
    bound: &[u32],
    a: &mut [u32],
    headroom: &mut [u32],
    offers: &mut [u64],
    takers: &mut [u64],
    j: usize,
    some: u64,
    open_rows: u64,
) -> u64
    requires sides { Sides n bound.now a.old offers.old takers.old }
    requires room { (2 * n ≤ length headroom.old) × (j < n) }
    ensures { Grew n bound.now a.old headroom.old a.new headroom.new offers.new takers.new }
{
    let mut left = open_rows;
    let mut todo = some;
    let mut want = headroom[n + j];
    while want > 0 {
        let i = nodes::first(todo);
        if i >= n {
            break;
        }
        todo = nodes::without(todo, i);
        let x = fill_at(n, bound, a, headroom, offers, takers, i, j, want);
        want -= x;
        if headroom[i] == 0 {
            left = nodes::without(left, i);
        }
    }
    headroom[n + j] = want;
    left
}

// Every column takes, from the rows of `rows`.
pub fn fill(
    n: usize,
    bound: &[u32],
    a: &mut [u32],
    headroom: &mut [u32],
    offers: &mut [u64],
    takers: &mut [u64],
    rows: u64,
)
    requires sides { Sides n bound.now a.old offers.old takers.old }
    requires room { 2 * n ≤ length headroom.old }
    ensures { Grew n bound.now a.old headroom.old a.new headroom.new offers.new takers.new }
{
    let mut left = rows;
    let mut late = nodes::all();
    for j in 0..n {
        let here = nodes::both(nodes::both(offers[j], left), late);
        left = fill_some(n, bound, a, headroom, offers, takers, j, here, left);
        let rest = nodes::minus(nodes::both(offers[j], left), late);
        left = fill_some(n, bound, a, headroom, offers, takers, j, rest, left);
        late = nodes::without(late, j);
    }
}
