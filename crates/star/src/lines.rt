// Lines: rows and columns as one thing. Lines 0 to N-1 are the rows; line N+j is column j.
ghost use Rattle.std.specs.Prelude.{◌≡◌, ◌+◌, ◌*◌, ◌<◌, ◌≤◌, length, set, MatchOption};
ghost use Rattle.std.proofs.Math.IntN.{sub_ℕ};
ghost use Rattle.sums.specs.Searches.{found};
ghost use Rattle.star.specs.Tables.{Demands};
ghost use Rattle.star.specs.Lines.{source_on, destination_on, crossing, on_line, line_sum};
ghost use Rattle.star.specs.LineSums.{Summed, Unsummed, SummedTo};
ghost use Rattle.star.specs.Refusals.{first_above};
ghost use Rattle.star.specs.RowSearches.{above_to, RowWithin, FirstInRow};
ghost use Rattle.star.specs.Rooms.{Square};

use crate::tables::{get, put};

// The line that crosses a line at its t-th pair.
pub fn crossing(n: usize, line: usize, t: usize) -> usize
    requires { (n ≤ 64) × (t < n) }
    ensures { result ≡ crossing n line t }
{
    if line < n { n + t } else { t }
}

// What the t-th pair of a line has.
pub fn on_line(n: usize, table: &[u32], line: usize, t: usize) -> u32
    requires square { Square n table.now }
    requires on_line { (line < 2 * n) × (t < n) }
    ensures { result ≡ on_line n table.now line t }
{
    if line < n {
        get(n, table, line, t)
    } else {
        get(n, table, t, line - n)
    }
}

// The t-th pair of a line has x from now on.
pub fn put_on_line(n: usize, table: &mut [u32], line: usize, t: usize, x: u32)
    requires square { Square n table.old }
    requires on_line { (line < 2 * n) × (t < n) }
    ensures { table.new ≡ set table.old (source_on n line t * n + destination_on n line t) x }
{
    if line < n {
        put(n, table, line, t, x);
    } else {
        put(n, table, t, line - n, x);
    }
}

// The sum of a line of demands.
pub fn line_sum(n: usize, demand: &[u32], line: usize) -> u32
    requires square { Square n demand.now }
    requires demands { Demands n demand.now }
    requires on_line { line < 2 * n }
    ensures { (result ≡ line_sum n demand.now line) × (result ≤ 4194240) }
{
    let mut sum = 0;
    for t in 0..n {
        sum += on_line(n, demand, line, t);
    }
    sum
}

// The columns' sums are 0 from now on.
fn clear_columns(n: usize, sums: &mut [u32])
    requires { (n ≤ 64) × (2 * n ≤ length sums.old) }
    ensures { Unsummed n sums.new n }
{
    sums[n..2 * n].fill(0);
}

// Adds the cells of row i to the sums of their columns, and gives the row's own sum.
fn sum_row(n: usize, table: &[u32], sums: &mut [u32], i: usize) -> u32
    requires square { Square n table.now }
    requires demands { Demands n table.now }
    requires room { (2 * n ≤ length sums.old) × (i < n) × (SummedTo n table.now sums.old i 0) }
    ensures { (result ≡ line_sum n table.now i) × (SummedTo n table.now sums.new i n) }
{
    let mut sum = 0;
    for j in 0..n {
        let x = get(n, table, i, j);
        sum += x;
        sums[n + j] += x;
    }
    sum
}

// The sums of all lines, in line order, in one pass over the rows.
pub fn line_sums(n: usize, table: &[u32], sums: &mut [u32])
    requires square { Square n table.now }
    requires demands { Demands n table.now }
    requires room { 2 * n ≤ length sums.old }
    ensures { Summed n table.now sums.new }
{
    clear_columns(n, sums);
    for i in 0..n {
        let sum = sum_row(n, table, sums, i);
        sums[i] = sum;
    }
}

// The slack of a line: its capacity minus its sum.
pub fn slack(capacity: u32, sum: u32) -> i32
    requires { (capacity ≤ 1024) × (sum ≤ 4194240) }
    ensures { result ≡ sub_ℕ capacity sum }
{
    capacity as i32 - sum as i32
}

// How many demands of row i are above 65,535: one comparison a cell, which the machine makes for several at once.
fn row_above(n: usize, demand: &[u32], i: usize) -> u32
    requires { (Square n demand.now) × (i < n) }
    ensures { result ≡ above_to n demand.now i n }
{
    let mut count = 0;
    for j in 0..n {
        count += u32::from(get(n, demand, i, j) > 65535);
    }
    count
}

// The first destination of row i whose demand is above 65,535.
fn first_in_row(n: usize, demand: &[u32], i: usize) -> Option<usize>
    requires { (Square n demand.now) × (i < n) }
    ensures { MatchOption result (RowWithin n demand.now i) (FirstInRow n demand.now i) }
{
    for j in 0..n {
        if get(n, demand, i, j) > 65535 {
            return Some(j);
        }
    }
    None
}

// The first demand above 65,535 in row order: only a row that has one is searched.
pub fn first_above(n: usize, demand: &[u32]) -> Option<usize>
    requires { Square n demand.now }
    ensures { result ≡ found (n * n) (first_above n demand.now) }
{
    for i in 0..n {
        if row_above(n, demand, i) > 0 {
            if let Some(j) = first_in_row(n, demand, i) {
                return Some(i * n + j);
            }
        }
    }
    None
}
