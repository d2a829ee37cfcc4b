// Filling a kept matrix up with idle slots until every line has one sum, the largest line sum of the matrix. `table` and `lack` are two parameters: of a
// struct that borrows the table each contract would have to say that it keeps its length, which a slice does by itself.
#![tactic(auto)]

ghost use Rattle.std.specs.Prelude.{◌*◌, ◌<◌, ◌≤◌, length};
ghost use Rattle.star.specs.Rooms.{Square};
ghost use Rattle.idle.specs.Idle.{Small, Loaded, LargestSum, Lacking, CanPad, Fuller, PaddedAt, PaddedAll, CanFill, Padded};

use star::lines::line_sums;

// Every pair gets what it keeps.
fn load(n: usize, table: &mut [u32])
    requires { (Square n table.old) × (Small n table.old) }
    ensures { Loaded n table.old table.new }
{
    for cell in &mut table[..n * n] {
        *cell *= 65537;
    }
}

// The largest of the sums.
fn largest_sum(n: usize, sums: &[u32]) -> u32
    requires { (n ≤ 64) × (2 * n ≤ length sums.now) }
    ensures { LargestSum n sums.now result }
{
    sums[..2 * n].iter().copied().max().unwrap_or(0)
}

// What each line lacks of r, in place of its sum.
fn lacks(n: usize, lack: &mut [u32], r: u32)
    requires { (n ≤ 64) × (2 * n ≤ length lack.old) × (LargestSum n lack.old r) }
    ensures { Lacking n lack.old lack.new r }
{
    for line in &mut lack[..2 * n] {
        *line = r - *line;
    }
}

// Gives the pair as many idle slots as its row and its column both lack.
fn pad_at(n: usize, table: &mut [u32], lack: &mut [u32], i: usize, j: usize)
    requires can_pad { CanPad n table.old lack.old }
    requires pair { (i < n) × (j < n) }
    ensures { PaddedAt n table.old lack.old table.new lack.new i j }
{
    let row = lack[i];
    let column = lack[n + j];
    let idle = row.min(column);
    cells::give(n, table, i, j, idle);
    lack[i] = row - idle;
    lack[n + j] = column - idle;
}

// Gives idle slots to those pairs of source i with the destinations from `from` to before `to` that keep nothing, until the row lacks nothing.
fn spare_between(n: usize, table: &mut [u32], lack: &mut [u32], i: usize, from: usize, to: usize)
    requires can_pad { CanPad n table.old lack.old }
    requires pairs { (i < n) × (to ≤ n) }
    ensures { Fuller n table.old lack.old table.new lack.new }
{
    for j in from..to {
        if lack[i] == 0 {
            return;
        }
        if cells::kept(n, table, i, j) == 0 {
            pad_at(n, table, lack, i, j);
        }
    }
}

// Gives idle slots to the pairs of source i that keep nothing, from destination i on, until the row lacks nothing: a pair that is idle only never
// changes by itself.
fn spare_row(n: usize, table: &mut [u32], lack: &mut [u32], i: usize)
    requires can_pad { CanPad n table.old lack.old }
    requires pair { i < n }
    ensures { Fuller n table.old lack.old table.new lack.new }
{
    spare_between(n, table, lack, i, i, n);
    spare_between(n, table, lack, i, 0, i);
}

// Gives idle slots to all pairs that keep nothing.
fn spare_all(n: usize, table: &mut [u32], lack: &mut [u32])
    requires { CanPad n table.old lack.old }
    ensures { Fuller n table.old lack.old table.new lack.new }
{
    for i in 0..n {
        spare_row(n, table, lack, i);
    }
}

// Gives what is still lacking down a staircase: after each pair its row or its column lacks nothing and is left behind. The loop counts neither
// alone, so it is no `for`.
fn stairs(n: usize, table: &mut [u32], lack: &mut [u32])
    requires { CanPad n table.old lack.old }
    ensures { PaddedAll n table.old table.new lack.old }
{
    let mut i = 0;
    let mut j = 0;
    while i < n && j < n {
        pad_at(n, table, lack, i, j);
        if lack[i] == 0 {
            i += 1;
        } else {
            j += 1;
        }
    }
}

// The table holds the matrix and the same with idle slots, where every line sums to the answer: the matrix's largest line sum.
pub fn pad(n: usize, table: &mut [u32]) -> u32
    requires { CanFill n table.old }
    ensures { Padded n table.old table.new result }
{
    let mut lack = [0u32; 128];
    line_sums(n, table, &mut lack);
    let r = largest_sum(n, &lack);
    lacks(n, &mut lack, r);
    load(n, table);
    spare_all(n, table, &mut lack);
    stairs(n, table, &mut lack);
    r
}
