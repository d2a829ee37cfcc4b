// The withdrawn matrix A: of those that take no more than the demand from a pair and no more than the excess from a line, one with the greatest total.
ghost use Rattle.std.specs.Prelude.{◌≡◌, ◌*◌, ◌≤◌, length, take};
ghost use Rattle.sums.specs.Tables.{tab};
ghost use Rattle.star.specs.Tables.{Demands};
ghost use Rattle.star.specs.Lines.{excess};
ghost use Rattle.star.specs.Rooms.{Square, Capacities};
ghost use Rattle.least.specs.Promises.{CanWithdraw, Withdrew};

use flow::largest;
use star::lines::line_sums;

// Writes the excess of each line: first the sums of all lines, and then each sum gives way to what it has above its capacity.
fn excesses(n: usize, cap: &[u32], demand: &[u32], table: &mut [u32])
    requires square { (Square n demand.now) × (Demands n demand.now) }
    requires capacities { (Capacities n cap.now) × (2 * n ≤ length table.old) }
    ensures { take (2 * n) table.new ≡ tab (2 * n) (excess n cap.now demand.now) }
{
    line_sums(n, demand, table);
    for line in 0..2 * n {
        table[line] = table[line].saturating_sub(cap[line]);
    }
}

// A greatest withdrawn matrix, and marks that prove it so; cells beyond the first n * n, and marks beyond the first 2N, are left as they are.
pub fn withdraw(n: usize, cap: &[u32], demand: &[u32], withdrawn: &mut [u32], marks: &mut [u8])
    requires { CanWithdraw n cap.now demand.now withdrawn.old marks.old }
    ensures { Withdrew n cap.now demand.now withdrawn.old marks.old withdrawn.new marks.new }
{
    let mut ceilings = [0u32; 128];
    excesses(n, cap, demand, &mut ceilings);
    largest(n, demand, &mut ceilings[..2 * n], withdrawn, marks);
}
