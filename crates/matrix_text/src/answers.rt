// The answer to an input, in document 01's order.
ghost use Rattle.std.specs.Prelude.{◌≡◌, length};
ghost use Rattle.pieces.specs.Pieces.{HasRoom, Puts, Answered};
ghost use Rattle.matrix_text.specs.Text.{longest_text};
ghost use Rattle.matrix_text.specs.Outcomes.{outcome, Prints};
ghost use Rattle.matrix_text.specs.Writes.{refused_text, answer_text, Printable, Judged};

use crate::text::{Head, put_plan};
use number_list::read;
use pieces::Pieces;
use planner::answers::Report;
use planner::plans::plan;
use star::refusals::Refusal;

// Bytes enough for the longest text.
pub const LONGEST_TEXT: usize = 45141;

// So many bytes an input may have.
const MOST_BYTES: usize = 65536;

// So many numbers the table stores: N, L, the rule, and the demand of the largest star.
const MOST_NUMBERS: usize = 4099;

// Prints a refusal of `plan`; `whole` says that there is a demand for each pair. 1, 2 and 3 come before that, the others after it.
fn put_refused(text: &mut Pieces, refusal: Refusal, whole: bool)
    requires { HasRoom text.old longest_text }
    ensures { Puts text.old text.new (refused_text whole refusal) }
{
    if whole || refusal.number() <= 3 {
        text.put_refusal(u64::from(refusal.number()), u64::from(refusal.place()));
    } else {
        text.put_bad_input();
    }
}

// Prints an answer of `plan`.
fn put_answer(
    text: &mut Pieces,
    answer: Result<Report, Refusal>,
    whole: bool,
    head: Head,
    kept: &[u32],
)
    requires room { HasRoom text.old longest_text }
    requires printable { Printable head.nodes kept.now answer }
    ensures { Puts text.old text.new (answer_text whole head.nodes head.slots head.rule kept.now answer) }
{
    match answer {
        Err(refusal) => put_refused(text, refusal, whole),
        Ok(report) if whole => put_plan(text, head, report, kept),
        Ok(_) => text.put_bad_input(),
    }
}

// Judges the numbers that the table stores. `plan` gives 1, 2 and 3 before it looks at the demand, so that the count of demands is judged after it.
fn put_judged(text: &mut Pieces, table: &[u32; MOST_NUMBERS], count: usize)
    requires { HasRoom text.old longest_text }
    ensures { Judged table.now count text.old text.new }
{
    let [nodes, slots, rule, demand @ ..] = &table[..count.min(MOST_NUMBERS)] else {
        text.put_bad_input();
        return;
    };
    let head = Head {
        nodes: *nodes,
        slots: *slots,
        rule: *rule,
    };
    let mut kept = [0u32; 4096];
    let mut withdrawn = [0u32; 4096];
    let mut schedule = [0u8; 65536];
    let answer = plan(
        *nodes,
        *slots,
        *rule,
        demand,
        &mut kept,
        &mut withdrawn,
        &mut schedule,
    );
    let n = *nodes as usize;
    put_answer(text, answer, count - 3 == n * n, head, &kept);
}

// Writes the answer to an input at the front of `out`, and gives its length.
pub fn answer(input: &[u8], out: &mut [u8; LONGEST_TEXT]) -> usize
    ensures { Answered (Prints (outcome input.now)) out.old out.new result }
{
    let mut text = Pieces::new(out);
    let mut table = [0u32; MOST_NUMBERS];
    let listed = if input.len() > MOST_BYTES {
        None
    } else {
        read(input, &mut table)
    };
    match listed {
        Some(count) => put_judged(&mut text, &table, count),
        None => text.put_bad_input(),
    }
    text.length()
}
