// Which line is cut next: of those above their capacity the one with the smallest fraction (c−b)/a, c its capacity; on a tie, the lowest.
ghost use Rattle.std.specs.Prelude.{◌*◌, ◌<◌, IfSome, unwrap_or};
ghost use Rattle.fair.specs.Cuts.{Comparable, Ahead, NextLine};

// The two sums of each line while lines are cut: of its unmodified cells, the a of its fraction, and of its modified ones, the b.
#[derive(Drop)]
pub struct LineSums {
    pub unmodified: [u32; 128],
    pub modified: [u32; 128],
}

// Whether a line is to be taken rather than the one found so far (2n where there is none). The number stands for none inside this search alone: an Option
// of the line, or of the line with its fraction, was tried, and took up to 1.5 times as long.
fn ahead(n: usize, cap: &[u32], sums: &LineSums, line: usize, found: usize) -> bool
    requires comparable { Comparable n cap.now sums.now.unmodified sums.now.modified }
    requires on_line { line < 2 * n }
    ensures { Ahead n cap.now sums.now.unmodified sums.now.modified line found result }
{
    if sums.unmodified[line] + sums.modified[line] <= cap[line] {
        return false;
    }
    if found >= 2 * n {
        return true;
    }
    (cap[line] - sums.modified[line]) * sums.unmodified[found]
        < (cap[found] - sums.modified[found]) * sums.unmodified[line]
}

// The line to cut next, if one is above its capacity.
pub fn next_line(n: usize, cap: &[u32], sums: &LineSums) -> Option<usize>
    requires { Comparable n cap.now sums.now.unmodified sums.now.modified }
    ensures on_line { IfSome result (λ line. line < 2 * n) }
    ensures next { NextLine n cap.now sums.now.unmodified sums.now.modified (2 * n) (unwrap_or result (2 * n)) }
{
    let mut found = 2 * n;
    for line in 0..2 * n {
        if ahead(n, cap, sums, line, found) {
            found = line;
        }
    }
    if found < 2 * n { Some(found) } else { None }
}
