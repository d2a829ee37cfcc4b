// The entry `frame`: a frame is planned from the queues and sent.
ghost use Rattle.calls.specs.Runs.{FrameOn};

use calls::frame::{frame_on, frames_after};
use calls::record::Run;
use planner::answers::Report;
use star::refusals::Refusal;

// Plans a frame with the queues as the demand, takes what is kept from waiting and adds it to sent; frames rises by 1. A refusal, in the order of
// `frame_notice`, writes nothing.
pub fn frame(
    run: &mut Run,
    waiting: &mut [u32],
    posted: &[u64],
    sent: &mut [u64],
    dropped: &[u64],
    kept: &mut [u32],
    withdrawn: &mut [u32],
    schedule: &mut [u8],
) -> Result<Report, Refusal>
    ensures { FrameOn run.old waiting.old posted.now sent.old dropped.now kept.old withdrawn.old schedule.old run.new waiting.new sent.new kept.new withdrawn.new schedule.new result }
{
    let old = *run;
    // A refused frame stores nothing: the record may lie in memory that cannot be written.
    let report = frame_on(
        old, waiting, posted, sent, dropped, kept, withdrawn, schedule,
    )?;
    run.frames = frames_after(old);
    Ok(report)
}
