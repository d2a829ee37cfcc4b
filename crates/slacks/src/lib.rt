// The entry `slacks`: what is left of the frame on each line.
#![tactic(auto)]

ghost use Rattle.std.specs.Prelude.{◌≡◌, ◌*◌, ◌≤◌, length};
ghost use Rattle.sums.specs.Tables.{tab, written};
ghost use Rattle.star.specs.Tables.{Demands};
ghost use Rattle.star.specs.Lines.{slack};
ghost use Rattle.star.specs.Rooms.{Square, Capacities};
ghost use Rattle.slacks.specs.Slacks.{SlacksResult};
ghost use Rattle.slacks.specs.Checks.{slacks_verdict};

use star::checks::{demand_above, demand_short, sizes};
use star::lines::{line_sums, slack};
use star::refusals::Refusal;

// Writes the slack of each line, given the capacity of each: first the sums of all lines are made.
fn write_slacks(n: usize, cap: &[u32], demand: &[u32], table: &mut [i32])
    requires square { (Square n demand.now) × (Demands n demand.now) }
    requires capacities { (Capacities n cap.now) × (2 * n ≤ length table.old) }
    ensures { table.new ≡ written (2 * n) (tab (2 * n) (slack n cap.now demand.now)) table.old }
{
    let mut sums = [0u32; 128];
    line_sums(n, demand, &mut sums);
    for line in 0..2 * n {
        table[line] = slack(cap[line], sums[line]);
    }
}

// Which refusal is given, if any; the last number says how many cells the table has.
#[tactic(auto, using(star::proofs::RefusalLaws::sized, star::proofs::RefusalLaws::long_demand), unfolding(star::specs::Checks::refuse, star::specs::Checks::then, crate::specs::Checks::slacks_verdict))]
fn slacks_verdict(nodes: u32, slots: u32, demand: &[u32], cells: usize) -> Result<(), Refusal>
    ensures { result ≡ slacks_verdict nodes slots demand.now cells }
{
    sizes(nodes, slots)?;
    let n = nodes as usize;
    demand_short(n, demand.len())?;
    if cells < 2 * n {
        return Err(Refusal::TableShort);
    }
    demand_above(n, demand)
}

// The slack of each line, rows first, to a table of 2N cells. A refusal, in the order of `slacks_notice`, writes nothing.
pub fn slacks(nodes: u32, slots: u32, demand: &[u32], table: &mut [i32]) -> Result<(), Refusal>
    ensures { SlacksResult nodes slots demand.now table.old table.new result }
{
    slacks_verdict(nodes, slots, demand, table.len())?;
    let n = nodes as usize;
    let cap = [slots; 128];
    write_slacks(n, &cap[..2 * n], demand, table);
    Ok(())
}
