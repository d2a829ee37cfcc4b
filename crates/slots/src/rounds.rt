// Turn after turn, until all slots are written.
ghost use Rattle.slots.specs.Rounds.{CanRound, CanSettle, Rounded};

use crate::writing;
use holds::turns;

// Writes the r slots, with lists to work in: what may be paired, the pairs, and what the destinations hear. Gives the reconfigurations. The loop goes on
// by as many slots as a setting is held for, so it is no `for`.
fn rounds(
    n: usize,
    r: usize,
    table: &mut [u32],
    may: &mut [u64],
    source: &mut [u8],
    destination: &mut [u8],
    bytes: &mut [u8],
    schedule: &mut [u8],
) -> u32
    requires { CanRound n r table.old may.old source.old destination.old bytes.old schedule.old }
    ensures { Rounded n r table.old schedule.old table.new schedule.new result }
{
    let mut turn = turns::begin(n, table, may, source, destination);
    let mut changes: u32 = 0;
    let mut t = 0;
    while t < r {
        let left = (r - t) as u32;
        turn = turns::next(n, table, may, source, destination, bytes, turn, left);
        let to = t + turn.slots as usize;
        changes += writing::extend(n, schedule, bytes, t, to);
        t = to;
    }
    changes
}

// The lists to work in, as one value: so they take one place of the stack, where flow has its own lists before.
#[derive(Drop)]
struct Lists {
    may: [u64; 64],
    source: [u8; 64],
    destination: [u8; 64],
    bytes: [u8; 64],
}

// Writes the r slots: every pair gets what it keeps, where every line of what the pairs get sums to r. Gives the reconfigurations.
pub fn settle(n: usize, r: usize, table: &mut [u32], schedule: &mut [u8]) -> u32
    requires { CanSettle n r table.old schedule.old }
    ensures { Rounded n r table.old schedule.old table.new schedule.new result }
{
    let mut lists = Lists {
        may: [0; 64],
        source: [0; 64],
        destination: [0; 64],
        bytes: [0; 64],
    };
    rounds(
        n,
        r,
        table,
        &mut lists.may,
        &mut lists.source,
        &mut lists.destination,
        &mut lists.bytes,
        schedule,
    )
}
