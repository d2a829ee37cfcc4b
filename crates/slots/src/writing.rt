// Writing a setting into the slots that come next, and counting the reconfiguration that it makes.
ghost use Rattle.std.specs.Prelude.{◌+◌, ◌<◌, ◌≤◌, length};
ghost use Rattle.arrays.specs.Arrays.{Frame, Slot};
ghost use Rattle.slots.specs.Writing.{WroteSlots, Extended};

use arrays::frames;

// Writes the bytes into slot k.
fn write_slot(n: usize, schedule: &mut [u8], bytes: &[u8], k: usize)
    requires { (n ≤ 64) × (Slot n schedule.old k) × (n ≤ length bytes.now) }
    ensures { WroteSlots n schedule.old schedule.new bytes.now k (k + 1) }
{
    for j in 0..n {
        frames::say(n, schedule, k, j, usize::from(bytes[j]));
    }
}

// Writes the bytes into the slots from `from` up to `to`.
fn write_slots(n: usize, schedule: &mut [u8], bytes: &[u8], from: usize, to: usize)
    requires frame { Frame n to schedule.old }
    requires room { (n ≤ length bytes.now) × (from ≤ to) }
    ensures { WroteSlots n schedule.old schedule.new bytes.now from to }
{
    for k in from..to {
        write_slot(n, schedule, bytes, k);
    }
}

// The slots from `from` up to `to` hold the setting; gives the reconfigurations that this adds.
pub fn extend(n: usize, schedule: &mut [u8], setting: &[u8], from: usize, to: usize) -> u32
    requires frame { Frame n to schedule.old }
    requires room { (n ≤ length setting.now) × (from < to) }
    ensures { Extended n schedule.old schedule.new setting.now from to result }
{
    let more = changes::change(n, schedule, from, setting);
    write_slots(n, schedule, setting, from, to);
    more
}
