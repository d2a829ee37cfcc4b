// What `fresh` does: a run starts.
ghost use Rattle.std.specs.Prelude.{◌≡◌, length};
ghost use Rattle.calls.specs.Held.{fresh_run, record_after};
ghost use Rattle.calls.specs.Runs.{FreshOn};
ghost use Rattle.calls.specs.Checks.{fresh_verdict};

use crate::checks::held_short;
use crate::record::Run;
use books::agreement::Books;
use books::amounts;
use star::checks::ranges;
use star::refusals::Refusal;
use star::tables;

// Which refusal is given, if any. The rule stays the number that C gives and that the record has.
#[tactic(auto, using(star::proofs::RefusalLaws::ranged), unfolding(star::specs::Checks::then, crate::specs::Checks::fresh_verdict))]
fn fresh_verdict(
    nodes: u32,
    slots: u32,
    limit: u32,
    rule: u32,
    books: &Books,
) -> Result<(), Refusal>
    ensures { result ≡ fresh_verdict nodes slots limit rule (length books.now.waiting.now) (length books.now.posted.now) (length books.now.sent.now) (length books.now.dropped.now) }
{
    ranges(nodes, slots, rule, limit)?;
    held_short(nodes as usize, books)
}

// A fresh start on the tables: what is answered, and what they hold then, beside the record that is to be.
pub fn fresh_on(
    old: Run,
    nodes: u32,
    slots: u32,
    limit: u32,
    rule: u32,
    waiting: &mut [u32],
    posted: &mut [u64],
    sent: &mut [u64],
    dropped: &mut [u64],
) -> Result<(), Refusal>
    ensures { FreshOn nodes slots limit rule old waiting.old posted.old sent.old dropped.old (record_after result (fresh_run nodes slots limit rule) old) waiting.new posted.new sent.new dropped.new result }
{
    let books = Books {
        waiting,
        posted,
        sent,
        dropped,
    };
    fresh_verdict(nodes, slots, limit, rule, &books)?;
    let n = nodes as usize;
    tables::clear(n, waiting);
    amounts::clear(n, posted);
    amounts::clear(n, sent);
    amounts::clear(n, dropped);
    Ok(())
}

// The record of a run that starts.
pub fn started(nodes: u32, slots: u32, limit: u32, rule: u32) -> Run
    ensures { result ≡ fresh_run nodes slots limit rule }
{
    Run {
        nodes,
        slots,
        limit,
        rule,
        posts: 0,
        frames: 0,
    }
}
