// Reconfigurations, neighbouring slots that differ for some destination, idle being a value like any other: what a setting adds to them.
#![tactic(auto)]

ghost use Rattle.std.specs.Prelude.{◌≡◌, ◌≤◌, length};
ghost use Rattle.star.specs.Schedules.{differ};
ghost use Rattle.arrays.specs.Arrays.{Frame, Slot};
ghost use Rattle.changes.specs.Changes.{change_at};

use arrays::frames;

// Whether slot k of one schedule and slot m of another differ for some destination. A setting is a schedule of one slot.
fn differs(n: usize, one: &[u8], k: usize, other: &[u8], m: usize) -> bool
    requires { (n ≤ 64) × (Slot n one.now k) × (Slot n other.now m) }
    ensures { result ≡ differ n one.now k other.now m }
{
    (0..n).any(|j| frames::heard(n, one, k, j) != frames::heard(n, other, m, j))
}

// What a setting adds to the reconfigurations where it is written from slot t on: 1 where the slot before differs from it, else 0.
pub fn change(n: usize, schedule: &[u8], t: usize, setting: &[u8]) -> u32
    requires { (Frame n t schedule.now) × (n ≤ length setting.now) }
    ensures { result ≡ change_at n schedule.now t setting.now }
{
    u32::from(t > 0 && differs(n, schedule, t - 1, setting, 0))
}
