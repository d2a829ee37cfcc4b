// What `post` does: arrivals come to the queues.
ghost use Rattle.std.specs.Prelude.{◌≡◌, ◌<◌};
ghost use Rattle.calls.specs.Held.{held, post_run, record_after};
ghost use Rattle.calls.specs.Runs.{PostOn};
ghost use Rattle.calls.specs.Checks.{post_verdict};

use crate::checks::{agreement, count_left, held_short};
use crate::record::Run;
use books::agreement::Books;
use books::amounts::add;
use books::queues::{drop_excess, enqueue};
use star::checks::{demand_above, demand_short, ranges};
use star::refusals::Refusal;

// Which refusal is given, if any.
#[tactic(auto, using(star::proofs::RefusalLaws::ranged, star::proofs::RefusalLaws::long_demand, crate::proofs::Verdicts::long_tables), unfolding(star::specs::Checks::then, crate::specs::Checks::post_verdict))]
fn post_verdict(old: Run, arrivals: &[u32], books: &Books) -> Result<(), Refusal>
    ensures { result ≡ post_verdict arrivals.now (held old books.now.waiting.now books.now.posted.now books.now.sent.now books.now.dropped.now) }
{
    ranges(old.nodes, old.slots, old.rule, old.limit)?;
    let n = old.nodes as usize;
    demand_short(n, arrivals.len())?;
    held_short(n, books)?;
    agreement(old, books)?;
    count_left(old.posts)?;
    demand_above(n, arrivals)
}

// A post on the tables: what is answered, and what they hold then, beside the record that is to be.
pub fn post_on(
    old: Run,
    arrivals: &[u32],
    waiting: &mut [u32],
    posted: &mut [u64],
    sent: &[u64],
    dropped: &mut [u64],
) -> Result<(), Refusal>
    ensures { PostOn arrivals.now old waiting.old posted.old sent.now dropped.old (record_after result (post_run old) old) waiting.new posted.new dropped.new result }
{
    let books = Books {
        waiting,
        posted,
        sent,
        dropped,
    };
    post_verdict(old, arrivals, &books)?;
    let n = old.nodes as usize;
    add(n, posted, arrivals);
    drop_excess(n, old.limit, arrivals, waiting, dropped);
    enqueue(n, old.limit, arrivals, waiting);
    Ok(())
}

// How many posts the record counts after a post that is accepted.
pub fn posts_after(old: Run) -> u32
    requires { old.posts < 1000000 }
    ensures { result ≡ (post_run old).posts }
{
    old.posts + 1
}
