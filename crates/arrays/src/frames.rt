// The slots of a schedule: slot k, destination j at k×N+j, holding the source, or 255 for idle.
ghost use Rattle.std.specs.Prelude.{◌≡◌, ◌+◌, ◌*◌, ◌<◌, set};
ghost use Rattle.sums.specs.Tables.{cell};
ghost use Rattle.arrays.specs.Arrays.{Slot};

// What destination j hears in slot k.
#[tactic(auto, unfolding(sums::specs::Tables::cell))]
pub fn heard(n: usize, schedule: &[u8], k: usize, j: usize) -> u8
    requires { (Slot n schedule.now k) × (j < n) }
    ensures { result ≡ cell n schedule.now k j }
{
    schedule[k * n + j]
}

// Destination j hears b in slot k from now on.
pub fn say(n: usize, schedule: &mut [u8], k: usize, j: usize, b: usize)
    requires { (Slot n schedule.old k) × (j < n) × (b < 256) }
    ensures { schedule.new ≡ set schedule.old (k * n + j) b }
{
    schedule[k * n + j] = b as u8;
}
