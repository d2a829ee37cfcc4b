// The entry `post`: arrivals come to the queues.
ghost use Rattle.calls.specs.Runs.{PostOn};

use calls::post::{post_on, posts_after};
use calls::record::Run;
use star::refusals::Refusal;

// Posts arrivals: each is added to posted, what would lift waiting above B to dropped, the rest to waiting; posts rises by 1. A refusal, in the order
// of `post_notice`, writes nothing.
pub fn post(
    run: &mut Run,
    arrivals: &[u32],
    waiting: &mut [u32],
    posted: &mut [u64],
    sent: &[u64],
    dropped: &mut [u64],
) -> Result<(), Refusal>
    ensures { PostOn arrivals.now run.old waiting.old posted.old sent.now dropped.old run.new waiting.new posted.new dropped.new result }
{
    let old = *run;
    // A refused post stores nothing: the record may lie in memory that cannot be written.
    post_on(old, arrivals, waiting, posted, sent, dropped)?;
    run.posts = posts_after(old);
    Ok(())
}
