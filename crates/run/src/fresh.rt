// The entry `fresh`: a run starts.
ghost use Rattle.calls.specs.Runs.{FreshOn};

use calls::fresh::{fresh_on, started};
use calls::record::Run;
use star::refusals::Refusal;

// Starts a run: N, L, B and the rule, a number as C gives it, go into the record, both counts and the first N * N cells of the four tables are 0. A
// refusal, in the order of `fresh_notice`, writes nothing.
pub fn fresh(
    run: &mut Run,
    nodes: u32,
    slots: u32,
    limit: u32,
    rule: u32,
    waiting: &mut [u32],
    posted: &mut [u64],
    sent: &mut [u64],
    dropped: &mut [u64],
) -> Result<(), Refusal>
    ensures { FreshOn nodes slots limit rule run.old waiting.old posted.old sent.old dropped.old run.new waiting.new posted.new sent.new dropped.new result }
{
    let old = *run;
    // A refused start stores nothing: the record may lie in memory that cannot be written.
    fresh_on(
        old, nodes, slots, limit, rule, waiting, posted, sent, dropped,
    )?;
    *run = started(nodes, slots, limit, rule);
    Ok(())
}
