// The search, in layers: rows with headroom, the columns that one of them can give more, the rows from which one of these columns takes, and so on to a
// column with headroom.
#![tactic(auto)]

ghost use Rattle.std.specs.Prelude.{◌*◌, ◌<◌, ◌≤◌, length, ◌≡◌, IsTrue, ◌↔◌};
ghost use Rattle.nodes.specs.Sets.{member, Within};
ghost use Rattle.layers.specs.Layers.{Leading, SearchEnded, Marked};

// The layers of a search: the rows of each, and its columns.
#[derive(Drop)]
pub struct Layers {
    pub rows: [u64; 65],
    pub columns: [u64; 65],
}

// Those of some nodes whose set meets another. Each node is asked, whether it is one of them or not: that takes less time than to go from one to the next.
fn leading(n: usize, list: &[u64], which: u64, to: u64) -> u64
    requires { (n ≤ 64) × (n ≤ length list.now) × (Within n to) }
    ensures { Leading n list.now which to result }
{
    let mut s = nodes::none();
    for i in 0..n {
        s = nodes::with_where(s, i, nodes::first(nodes::both(list[i], to)) < 64);
    }
    nodes::both(s, which)
}

// Whether node k is not in the set.
fn absent(s: u64, k: usize) -> bool
    requires { k < 64 }
    ensures { IsTrue result ↔ member k s ≡ 0 }
{
    nodes::first(nodes::both(s, nodes::with(nodes::none(), k))) >= 64
}

// Marks the lines that are not in the two sets: what is left of the rows, and of the columns.
pub fn mark(n: usize, marks: &mut [u8], rows: u64, columns: u64)
    requires { (n ≤ 64) × (2 * n ≤ length marks.old) }
    ensures { Marked n rows columns marks.new }
{
    for k in 0..n {
        marks[k] = u8::from(absent(rows, k));
        marks[n + k] = u8::from(absent(columns, k));
    }
}

// The layers from the roots to the first that has a goal; the number of that layer, which has its goals alone. None where no goal is reached, and then the
// marks are those of what is reached.
pub fn search(
    n: usize,
    offers: &[u64],
    takers: &[u64],
    layers: &mut Layers,
    marks: &mut [u8],
    roots: u64,
    goals: u64,
) -> Option<usize>
    requires { (n ≤ 64) × (n ≤ length offers.now) × (n ≤ length takers.now) × (2 * n ≤ length marks.old) × (Within n roots) }
    ensures { SearchEnded n offers.now takers.now layers.new.rows layers.new.columns marks.new roots goals result }
{
    let mut fresh_rows = nodes::minus(nodes::all(), roots);
    let mut fresh_columns = nodes::all();
    let mut here = roots;
    let mut k = 0;
    // No `for`: it would need an end for k and an answer after it, while each turn reaches a row, so that the search ends by itself.
    loop {
        layers.rows[k] = here;
        let new = leading(n, offers, fresh_columns, here);
        fresh_columns = nodes::minus(fresh_columns, new);
        let ends = nodes::both(new, goals);
        if nodes::first(ends) < n {
            layers.columns[k] = ends;
            return Some(k);
        }
        layers.columns[k] = new;
        here = leading(n, takers, fresh_rows, new);
        if nodes::first(here) >= n {
            mark(n, marks, fresh_rows, fresh_columns);
            return None;
        }
        fresh_rows = nodes::minus(fresh_rows, here);
        k += 1;
    }
}
