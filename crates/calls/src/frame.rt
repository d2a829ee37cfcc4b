// What `frame` does: a frame is planned from the queues and sent.
ghost use Rattle.std.specs.Prelude.{◌≡◌, ◌<◌, IfOk};
ghost use Rattle.star.specs.Refusals.{verdict_of};
ghost use Rattle.star.specs.Rules.{rule_number};
ghost use Rattle.calls.specs.Held.{held, frame_run, record_after};
ghost use Rattle.calls.specs.Runs.{FrameOn};
ghost use Rattle.calls.specs.Checks.{frame_verdict};

use crate::checks::{agreement, count_left, held_short};
use crate::record::Run;
use books::agreement::Books;
use books::amounts::add;
use books::queues::dequeue;
use planner::answers::Report;
use planner::checks::lent_short;
use planner::plans::write_whole;
use star::checks::ranges;
use star::refusals::Refusal;
use star::rules::Rule;

// The rule, or which refusal is given; the last three numbers say how many cells kept, withdrawn and schedule have.
#[tactic(auto, using(star::proofs::RefusalLaws::ranged, crate::proofs::Verdicts::long_tables), unfolding(star::specs::Checks::then, crate::specs::Checks::frame_verdict))]
fn frame_verdict(
    old: Run,
    books: &Books,
    kept: usize,
    withdrawn: usize,
    schedule: usize,
) -> Result<Rule, Refusal>
    ensures verdict { verdict_of result ≡ frame_verdict (held old books.now.waiting.now books.now.posted.now books.now.sent.now books.now.dropped.now) kept withdrawn schedule }
    ensures rule { IfOk result (λ r. rule_number r ≡ old.rule) }
{
    let rule = ranges(old.nodes, old.slots, old.rule, old.limit)?;
    let n = old.nodes as usize;
    held_short(n, books)?;
    lent_short(n, old.slots as usize, kept, withdrawn, schedule)?;
    agreement(old, books)?;
    count_left(old.frames)?;
    Ok(rule)
}

// A frame on the tables: what is answered, and what they hold then, beside the record that is to be.
pub fn frame_on(
    old: Run,
    waiting: &mut [u32],
    posted: &[u64],
    sent: &mut [u64],
    dropped: &[u64],
    kept: &mut [u32],
    withdrawn: &mut [u32],
    schedule: &mut [u8],
) -> Result<Report, Refusal>
    ensures { FrameOn old waiting.old posted.now sent.old dropped.now kept.old withdrawn.old schedule.old (record_after (verdict_of result) (frame_run old) old) waiting.new sent.new kept.new withdrawn.new schedule.new result }
{
    let books = Books {
        waiting,
        posted,
        sent,
        dropped,
    };
    let rule = frame_verdict(old, &books, kept.len(), withdrawn.len(), schedule.len())?;
    let report = write_whole(
        old.nodes, old.slots, rule, waiting, kept, withdrawn, schedule,
    );
    let n = old.nodes as usize;
    dequeue(n, kept, waiting);
    add(n, sent, kept);
    Ok(report)
}

// How many frames the record counts after a frame that is accepted.
pub fn frames_after(old: Run) -> u32
    requires { old.frames < 1000000 }
    ensures { result ≡ (frame_run old).frames }
{
    old.frames + 1
}
