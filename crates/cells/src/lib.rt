// The kept table while slots are placed. A cell holds K + 65,536×v: K is what the pair keeps, and v what it still gets, idle slots too.
// Nowhere else is a cell taken apart.
#![tactic(auto)]

ghost use Rattle.std.specs.Prelude.{◌≡◌, ◌+◌, ◌<◌, ◌≤◌};
ghost use Rattle.sums.specs.Tables.{cell};
ghost use Rattle.star.specs.Rooms.{Square};
ghost use Rattle.cells.specs.Cells.{padded_in, kept_in, Gave, Took};

use star::tables::{get, put};

// What the pair of source i and destination j still gets.
#[tactic(auto, using(crate::proofs::CellLaws::padded_cell))]
pub fn padded(n: usize, table: &[u32], i: usize, j: usize) -> u32
    requires square { Square n table.now }
    requires pair { (i < n) × (j < n) }
    ensures { (result ≡ cell n (padded_in table.now) i j) × (result < 65536) }
{
    get(n, table, i, j) / 65536
}

// What the pair keeps.
#[tactic(auto, using(crate::proofs::CellLaws::kept_cell_lem))]
pub fn kept(n: usize, table: &[u32], i: usize, j: usize) -> u32
    requires square { Square n table.now }
    requires pair { (i < n) × (j < n) }
    ensures { (result ≡ cell n (kept_in table.now) i j) × (result < 65536) }
{
    get(n, table, i, j) % 65536
}

// The pair gets h slots more.
#[tactic(auto, using(crate::proofs::CellLaws::padded_cell))]
pub fn give(n: usize, table: &mut [u32], i: usize, j: usize, h: u32)
    requires square { Square n table.old }
    requires pair { (i < n) × (j < n) × (cell n (padded_in table.old) i j + h < 65536) }
    ensures { Gave n table.old table.new i j h }
{
    put(n, table, i, j, get(n, table, i, j) + h * 65536);
}

// The pair gets h slots fewer.
#[tactic(auto, using(crate::proofs::CellLaws::padded_cell))]
pub fn take(n: usize, table: &mut [u32], i: usize, j: usize, h: u32)
    requires square { Square n table.old }
    requires pair { (i < n) × (j < n) × (h ≤ cell n (padded_in table.old) i j) }
    ensures { Took n table.old table.new i j h }
{
    put(n, table, i, j, get(n, table, i, j) - h * 65536);
}
