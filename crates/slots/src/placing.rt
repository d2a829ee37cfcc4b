// Placing a kept matrix.
ghost use Rattle.std.specs.Prelude.{◌≡◌, ◌*◌, ◌≤◌, length};
ghost use Rattle.arrays.specs.Arrays.{Frame};
ghost use Rattle.slots.specs.Places.{CanPlace, Places, Rested};

use crate::{rounds, writing};

// The slots from r on are idle; gives the reconfigurations that this adds.
fn rest(n: usize, r: usize, l: usize, schedule: &mut [u8]) -> u32
    requires { (Frame n l schedule.old) × (r ≤ l) }
    ensures { Rested n r l schedule.old schedule.new result }
{
    if r >= l {
        return 0;
    }
    let idle = [255u8; 64];
    writing::extend(n, schedule, &idle, r, l)
}

// Places the kept matrix, in a table that has no further cells.
fn place_exactly(n: usize, l: usize, kept: &mut [u32], schedule: &mut [u8]) -> u32
    requires can_place { CanPlace n l kept.old schedule.old }
    requires exact { length kept.old ≡ n * n }
    ensures { Places n l kept.old schedule.old kept.new schedule.new result }
{
    let r = idle::pad(n, kept) as usize;
    let changes = rounds::settle(n, r, kept, schedule);
    changes + rest(n, r, l, schedule)
}

// Writes the l slots: the schedule names source i for destination j exactly kept(i,j) times, without conflict, and holds 255 elsewhere.
// Bytes beyond the l slots stay as they are. While slots are placed the kept table is worked in; at the end it is as it was. Gives the
// reconfigurations.
pub fn place(nodes: usize, slots: usize, kept: &mut [u32], schedule: &mut [u8]) -> u32
    requires { CanPlace nodes slots kept.old schedule.old }
    ensures { Places nodes slots kept.old schedule.old kept.new schedule.new result }
{
    let cells = nodes * nodes;
    place_exactly(nodes, slots, &mut kept[..cells], schedule)
}
