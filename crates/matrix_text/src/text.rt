// The text of a plan, piece by piece. Each piece must fit.
ghost use Rattle.std.specs.Prelude.{◌≡◌, ◌+◌, ◌≤◌, ◌<◌, length};
ghost use Rattle.star.specs.Rooms.{Square};
ghost use Rattle.pieces.specs.Pieces.{HasRoom, Puts};
ghost use Rattle.pieces.specs.Text.{named};
ghost use Rattle.matrix_text.specs.Text.{head_text, totals_text, mark_after, row_text, rows_text, plan_text, longest_text};

use pieces::Pieces;
use planner::answers::Report;
use star::tables::get;

// The numbers before the demand, as the input has them: N, L and the rule.
#[derive(Clone, Copy)]
pub struct Head {
    pub nodes: u32,
    pub slots: u32,
    pub rule: u32,
}

// The byte after the number of destination j.
fn mark_after(n: usize, j: usize) -> u8
    requires { j < n }
    ensures { result ≡ mark_after n j }
{
    if j + 1 == n { b'\n' } else { b' ' }
}

// The line of source i: what it keeps of each destination.
fn put_row(text: &mut Pieces, n: usize, kept: &[u32], i: usize)
    requires square { (Square n kept.now) × (i < n) }
    requires fits { HasRoom text.old (length (row_text n kept.now i)) }
    ensures { Puts text.old text.new (row_text n kept.now i) }
{
    for j in 0..n {
        text.put_marked(u64::from(get(n, kept, i, j)), mark_after(n, j));
    }
}

// A line for each source.
fn put_rows(text: &mut Pieces, n: usize, kept: &[u32])
    requires square { Square n kept.now }
    requires fits { HasRoom text.old (length (rows_text n kept.now)) }
    ensures { Puts text.old text.new (rows_text n kept.now) }
{
    for i in 0..n {
        put_row(text, n, kept, i);
    }
}

// A word and a number of 32 bits, which has at most ten digits.
fn put_word(text: &mut Pieces, word: &[u8], number: u32)
    requires { HasRoom text.old (length word.now + 10) }
    ensures puts { Puts text.old text.new (named word.now number) }
    ensures short { length (named word.now number) ≤ length word.now + 10 }
{
    text.put_named(word, u64::from(number));
}

// Line 1.
fn put_head(text: &mut Pieces, head: Head)
    requires { HasRoom text.old 50 }
    ensures puts { Puts text.old text.new (head_text head.nodes head.slots head.rule) }
    ensures short { length (head_text head.nodes head.slots head.rule) ≤ 50 }
{
    put_word(text, b"nodes ", head.nodes);
    put_word(text, b" slots ", head.slots);
    put_word(text, b" rule ", head.rule);
    text.put_byte(b'\n');
}

// Line 2.
fn put_totals(text: &mut Pieces, report: Report)
    requires { HasRoom text.old 35 }
    ensures puts { Puts text.old text.new (totals_text report.kept report.refused) }
    ensures short { length (totals_text report.kept report.refused) ≤ 35 }
{
    put_word(text, b"kept ", report.kept);
    put_word(text, b" refused ", report.refused);
    text.put_byte(b'\n');
}

// A plan without its schedule: line 1, line 2, and a line for each source.
pub fn put_plan(text: &mut Pieces, head: Head, report: Report, kept: &[u32])
    requires square { Square head.nodes kept.now }
    requires room { HasRoom text.old longest_text }
    ensures { Puts text.old text.new (plan_text head.nodes head.slots head.rule report.kept report.refused kept.now) }
{
    put_head(text, head);
    put_totals(text, report);
    put_rows(text, head.nodes as usize, kept);
}
