// The pairs that still get at least `level` slots. Any level from 1 on is right; a high one holds each pairing for long.
ghost use Rattle.std.specs.Prelude.{◌<◌, ◌≤◌, length};
ghost use Rattle.star.specs.Rooms.{Square};
ghost use Rattle.at_least.specs.AtLeast.{AtLeast};
ghost use Rattle.cells.specs.Cells.{padded_in};

// A lower level: by a sixteenth where the level has served for two pairings or more, and by a quarter otherwise.
pub fn lower(level: u32, held: u32) -> u32
    requires { (2 ≤ level) × (level < 65536) }
    ensures { (1 ≤ result) × (result < level) }
{
    if held > 1 {
        return level - 1 - level / 16;
    }
    level * 3 / 4
}

// The most that a pair of source i gets.
fn row_most(n: usize, table: &[u32], i: usize) -> u32
    requires { (Square n table.now) × (i < n) }
    ensures { result < 65536 }
{
    let mut most = 0;
    for j in 0..n {
        most = most.max(cells::padded(n, table, i, j));
    }
    most
}

// The level to start from: every source has a pair that gets as much. At least 1.
pub fn start(n: usize, table: &[u32]) -> u32
    requires { Square n table.now }
    ensures { (1 ≤ result) × (result < 65536) }
{
    let mut level = 65535;
    for i in 0..n {
        level = level.min(row_most(n, table, i));
    }
    level.max(1)
}

// The sources that each destination may hear at this level. What a pair keeps is less than 65,536, so its cell is at least 65,536×level just where
// it still gets as many slots.
#[tactic(auto, using(crate::proofs::LevelLaws::padded_at_least))]
pub fn allow(n: usize, table: &[u32], level: u32, may: &mut [u64])
    requires { (Square n table.now) × (n ≤ length may.old) × (level < 65536) }
    ensures { AtLeast n (padded_in table.now) level may.new }
{
    at_least::rows(n, table, level * 65536, may);
}
