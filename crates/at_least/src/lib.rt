// Which cells of a table are at least so much: for each column the rows, as a set of nodes.
#![tactic(auto)]

ghost use Rattle.std.specs.Prelude.{◌<◌, ◌≤◌, length};
ghost use Rattle.star.specs.Rooms.{Square};
ghost use Rattle.at_least.specs.AtLeast.{AtLeast};
ghost use Rattle.at_least.specs.Halves.{CanAdd, RowAdded, RowsAdded, HalvesJoined};

use star::tables::get;

// Row i, node `bit` of the half, joins the sets of the columns in which its cell is at least `threshold`.
fn add_row(n: usize, table: &[u32], threshold: u32, half: &mut [u32], i: usize, bit: usize)
    requires { (Square n table.now) × (n ≤ length half.old) × (i < n) × (bit < 32) }
    ensures { RowAdded n table.now threshold half.old half.new i bit n }
{
    for j in 0..n {
        let enough = get(n, table, i, j) >= threshold;
        half[j] = nodes::half_with_where(half[j], bit, enough);
    }
}

// The rows from `from` to before `to` join the sets of a half that was empty.
fn add_rows(n: usize, table: &[u32], threshold: u32, half: &mut [u32], from: usize, to: usize)
    requires { (Square n table.now) × (CanAdd n half.old from to) }
    ensures { RowsAdded n table.now threshold half.new from to }
{
    for i in from..to {
        add_row(n, table, threshold, half, i, i - from);
    }
}

// Puts two halves together.
fn join(n: usize, low: &[u32], high: &[u32], sets: &mut [u64])
    requires { (n ≤ length low.now) × (n ≤ length high.now) × (n ≤ length sets.old) }
    ensures { HalvesJoined low.now high.now sets.new n }
{
    for j in 0..n {
        sets[j] = nodes::joined(low[j], high[j]);
    }
}

// Two halves of each set of rows, as one value: so they take one place of the stack, where flow has its layers later.
#[derive(Drop)]
struct Halves {
    low: [u32; 64],
    high: [u32; 64],
}

// For each column of a table the rows whose cell is at least `threshold`, as a set. They are found in halves, of which the machine takes four at a time.
pub fn rows(n: usize, table: &[u32], threshold: u32, sets: &mut [u64])
    requires { (Square n table.now) × (n ≤ length sets.old) }
    ensures { AtLeast n table.now threshold sets.new }
{
    let middle = n.min(32);
    let mut halves = Halves {
        low: [0; 64],
        high: [0; 64],
    };
    add_rows(n, table, threshold, &mut halves.low, 0, middle);
    add_rows(n, table, threshold, &mut halves.high, middle, n);
    join(n, &halves.low, &halves.high, sets);
}
