// The fair rule on a table of demands.
ghost use Rattle.std.specs.Prelude.{◌≡◌, ◌*◌};
ghost use Rattle.sums.specs.Tables.{written};
ghost use Rattle.fair.specs.Fair.{fair_kept};
ghost use Rattle.fair.specs.Cuts.{CanCut, CanCutExactly, CanCutAll};

use crate::choice::{LineSums, next_line};
use crate::line::cut_line;
use star::lines::line_sums;
use star::tables::copy;

// One line after the other is cut, until none is above its capacity. No line is cut twice, so it ends.
fn cut_all(n: usize, cap: &[u32], kept: &mut [u32], done: &mut [u8], sums: &mut LineSums)
    requires { CanCutAll n cap.now kept.old done.old sums.old.unmodified sums.old.modified }
    ensures { kept.new ≡ fair_kept n cap.now kept.old }
{
    while let Some(line) = next_line(n, cap, sums) {
        cut_line(n, cap, kept, done, sums, line);
    }
}

// What the rule keeps of the demands, into a table of n * n cells, with a flag for each line to work with: 0 or 1, as in `Cutting` of
// specs/Fair.antt, which may not change.
fn cut_exactly(n: usize, cap: &[u32], demand: &[u32], kept: &mut [u32], done: &mut [u8])
    requires { CanCutExactly n cap.now demand.now kept.old done.old }
    ensures { kept.new ≡ fair_kept n cap.now demand.now }
{
    let mut sums = LineSums {
        unmodified: [0; 128],
        modified: [0; 128],
    };
    copy(demand, kept, n * n);
    line_sums(n, demand, &mut sums.unmodified);
    cut_all(n, cap, kept, done, &mut sums);
}

// The slots that each pair keeps under the fair rule, from its demands and the capacities of the 2n lines; further cells of kept stay as they are.
pub fn cut(n: usize, cap: &[u32], demand: &[u32], kept: &mut [u32])
    requires { CanCut n cap.now demand.now kept.old }
    ensures { kept.new ≡ written (n * n) (fair_kept n cap.now demand.now) kept.old }
{
    let mut done = [0u8; 128];
    cut_exactly(n, cap, demand, &mut kept[..n * n], &mut done[..2 * n]);
}
