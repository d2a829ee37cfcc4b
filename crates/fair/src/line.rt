// One line is cut: each of its unmodified cells v becomes v×(c−b)/a rounded down, c its capacity.
ghost use Rattle.fair.specs.Cuts.{CanCutCell, CellCut, CanCutLine, LineCut};

use crate::choice::LineSums;
use star::lines::{crossing, on_line, put_on_line};

// An unmodified cell v of a line becomes v×p/q rounded down, and goes over from a to b on the line that crosses there.
#[tactic(auto, using(star::proofs::CrossingLaws::crossing_lt))]
fn cut_cell(
    n: usize,
    kept: &mut [u32],
    sums: &mut LineSums,
    line: usize,
    t: usize,
    p: u32,
    q: u32,
) -> u32
    requires { CanCutCell n kept.old sums.old.unmodified sums.old.modified line t p q }
    ensures { CellCut n kept.old sums.old.unmodified sums.old.modified line t p q kept.new sums.new.unmodified sums.new.modified result }
{
    let v = on_line(n, kept, line, t);
    let share = v * p / q;
    let cross = crossing(n, line, t);
    put_on_line(n, kept, line, t, share);
    sums.unmodified[cross] -= v;
    sums.modified[cross] += share;
    share
}

// A line is cut, and the sums of all lines follow. A cell is modified already where the line that crosses there has been cut.
pub fn cut_line(
    n: usize,
    cap: &[u32],
    kept: &mut [u32],
    done: &mut [u8],
    sums: &mut LineSums,
    line: usize,
)
    requires { CanCutLine n cap.now kept.old done.old sums.old.unmodified sums.old.modified line }
    ensures { LineCut n cap.now kept.old done.old sums.old.unmodified sums.old.modified line kept.new done.new sums.new.unmodified sums.new.modified }
{
    let p = cap[line] - sums.modified[line];
    let q = sums.unmodified[line];
    let mut sum = 0;
    for t in 0..n {
        if done[crossing(n, line, t)] == 0 {
            sum += cut_cell(n, kept, sums, line, t, p, q);
        }
    }
    sums.unmodified[line] = 0;
    sums.modified[line] += sum;
    done[line] = 1;
}
