// The entry `plan`: what each pair keeps of its demand, and how the frame carries it.
ghost use Rattle.star.specs.Lines.{whole_frame};
ghost use Rattle.star.specs.Rules.{rule_number};
ghost use Rattle.planner.specs.Plans.{PlanOn};
ghost use Rattle.planner.specs.Work.{PlanRoomOn, PlanDoneOn};

use crate::answers::Report;
use crate::checks::plan_verdict;
use crate::kept::{keep_by_rule, total};
use slots::placing::place;
use star::refusals::Refusal;
use star::rules::Rule;

// The work of a plan, once all checks have passed: keeps by the rule, places what is kept, and reports.
fn write_plan(
    n: usize,
    l: usize,
    rule: Rule,
    cap: &[u32],
    demand: &[u32],
    kept: &mut [u32],
    withdrawn: &mut [u32],
    schedule: &mut [u8],
) -> Report
    requires { PlanRoomOn n l (rule_number rule) cap.now demand.now kept.old withdrawn.old schedule.old }
    ensures { PlanDoneOn n l (rule_number rule) cap.now demand.now kept.old withdrawn.old schedule.old kept.new withdrawn.new schedule.new result }
{
    keep_by_rule(n, rule, cap, demand, kept, withdrawn);
    let switched = place(n, l, kept, schedule);
    let all = total(n, demand);
    let carried = total(n, kept);
    Report {
        kept: carried,
        refused: all - carried,
        reconfigurations: switched,
    }
}

// The same where each line may fill the frame. (The three tables stay apart, as C lends them: a struct of three would be made for each call.)
pub fn write_whole(
    nodes: u32,
    slots: u32,
    rule: Rule,
    demand: &[u32],
    kept: &mut [u32],
    withdrawn: &mut [u32],
    schedule: &mut [u8],
) -> Report
    requires { PlanRoomOn nodes slots (rule_number rule) (whole_frame nodes slots) demand.now kept.old withdrawn.old schedule.old }
    ensures { PlanDoneOn nodes slots (rule_number rule) (whole_frame nodes slots) demand.now kept.old withdrawn.old schedule.old kept.new withdrawn.new schedule.new result }
{
    let cap = [slots; 128];
    let n = nodes as usize;
    write_plan(
        n,
        slots as usize,
        rule,
        &cap[..2 * n],
        demand,
        kept,
        withdrawn,
        schedule,
    )
}

// The slots that each pair keeps, and how the frame carries them; the rule is any number, as C gives it. Kept and withdrawn have N×N cells, the
// schedule L×N bytes. A refusal, in the order of `plan_notice`, writes nothing.
pub fn plan(
    nodes: u32,
    slots: u32,
    rule: u32,
    demand: &[u32],
    kept: &mut [u32],
    withdrawn: &mut [u32],
    schedule: &mut [u8],
) -> Result<Report, Refusal>
    ensures { PlanOn nodes slots rule demand.now kept.old withdrawn.old schedule.old kept.new withdrawn.new schedule.new result }
{
    let known = plan_verdict(
        nodes,
        slots,
        rule,
        demand,
        kept.len(),
        withdrawn.len(),
        schedule.len(),
    )?;
    Ok(write_whole(nodes, slots, known, demand, kept, withdrawn, schedule))
}
