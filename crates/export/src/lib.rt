// The entries for programs in C and Rust: numbers and slices in, the documents' number out, its place and what else is reported through a reference.
// The C interface has numbers for rules, kinds and refusals and lent tables one by one, and so have the functions called here, but for the answer, a Result.
#![tactic(auto)]

ghost use Rattle.std.specs.Prelude.{◌≡◌};
ghost use Rattle.slacks.specs.Slacks.{SlacksResult};
ghost use Rattle.planner.specs.Plans.{PlanOn};
ghost use Rattle.calls.specs.Runs.{FreshOn, PostOn, FrameOn};
ghost use Rattle.file_writer.specs.Writing.{WriteResult};
ghost use Rattle.scenario_text.specs.Outcomes.{PrintResult};
ghost use Rattle.export.specs.Reports.{Reported, ReportedPlan, ReportedOutput, plan_report, output_report};

use calls::record::Run;
use planner::answers::{Report, report_of};
use star::refusals::Refusal;

// `slacks::slacks`; returns the number of the refusal, 0 where the call is accepted, and stores its place.
#[unsafe(no_mangle)]
pub extern "C" fn gyodaebeun_slacks(
    nodes: u32,
    slots: u32,
    demand: &[u32],
    slacks: &mut [i32],
    place: &mut u32,
) -> u32
    ensures { Reported (SlacksResult nodes slots demand.now slacks.old slacks.new) result place.new }
{
    let answer = slacks::slacks(nodes, slots, demand, slacks);
    *place = star::refusals::place(&answer);
    star::refusals::number(&answer)
}

// The place, the kept total, the refused total and the reconfigurations of an answer.
fn reported(answer: Result<Report, Refusal>) -> [u32; 4]
    ensures { result ≡ plan_report answer }
{
    let report = report_of(answer);
    [
        star::refusals::place(&answer),
        report.kept,
        report.refused,
        report.reconfigurations,
    ]
}

// `planner::plans::plan`; returns the number of the refusal, 0 where the call is accepted, and stores its place, the kept total, the refused
// total and the reconfigurations.
#[unsafe(no_mangle)]
pub extern "C" fn gyodaebeun_plan(
    nodes: u32,
    slots: u32,
    rule: u32,
    demand: &[u32],
    kept: &mut [u32],
    withdrawn: &mut [u32],
    schedule: &mut [u8],
    report: &mut [u32; 4],
) -> u32
    ensures { ReportedPlan (λ a. PlanOn nodes slots rule demand.now kept.old withdrawn.old schedule.old kept.new withdrawn.new schedule.new a) result report.new }
{
    let answer = planner::plans::plan(nodes, slots, rule, demand, kept, withdrawn, schedule);
    *report = reported(answer);
    star::refusals::number(&answer)
}

// `run::fresh::fresh`; returns the number of the refusal, 0 where the call is accepted, and stores its place.
#[unsafe(no_mangle)]
pub extern "C" fn gyodaebeun_fresh(
    run: &mut Run,
    nodes: u32,
    slots: u32,
    limit: u32,
    rule: u32,
    waiting: &mut [u32],
    posted: &mut [u64],
    sent: &mut [u64],
    dropped: &mut [u64],
    place: &mut u32,
) -> u32
    ensures { Reported (λ v. FreshOn nodes slots limit rule run.old waiting.old posted.old sent.old dropped.old run.new waiting.new posted.new sent.new dropped.new v) result place.new }
{
    let answer = run::fresh::fresh(
        run, nodes, slots, limit, rule, waiting, posted, sent, dropped,
    );
    *place = star::refusals::place(&answer);
    star::refusals::number(&answer)
}

// `run::post::post`; returns the number of the refusal, 0 where the call is accepted, and stores its place.
#[unsafe(no_mangle)]
pub extern "C" fn gyodaebeun_post(
    run: &mut Run,
    arrivals: &[u32],
    waiting: &mut [u32],
    posted: &mut [u64],
    sent: &[u64],
    dropped: &mut [u64],
    place: &mut u32,
) -> u32
    ensures { Reported (λ v. PostOn arrivals.now run.old waiting.old posted.old sent.now dropped.old run.new waiting.new posted.new dropped.new v) result place.new }
{
    let answer = run::post::post(run, arrivals, waiting, posted, sent, dropped);
    *place = star::refusals::place(&answer);
    star::refusals::number(&answer)
}

// `run::frame::frame`; returns the number of the refusal, 0 where the call is accepted, and stores its place, the kept total, the refused
// total and the reconfigurations.
#[unsafe(no_mangle)]
pub extern "C" fn gyodaebeun_frame(
    run: &mut Run,
    waiting: &mut [u32],
    posted: &[u64],
    sent: &mut [u64],
    dropped: &[u64],
    kept: &mut [u32],
    withdrawn: &mut [u32],
    schedule: &mut [u8],
    report: &mut [u32; 4],
) -> u32
    ensures { ReportedPlan (λ a. FrameOn run.old waiting.old posted.now sent.old dropped.now kept.old withdrawn.old schedule.old run.new waiting.new sent.new kept.new withdrawn.new schedule.new a) result report.new }
{
    let answer = run::frame::frame(
        run, waiting, posted, sent, dropped, kept, withdrawn, schedule,
    );
    *report = reported(answer);
    star::refusals::number(&answer)
}

// The place and the number of bytes of an answer.
fn reported_output(output: Result<u32, Refusal>) -> [u32; 2]
    ensures { result ≡ output_report output }
{
    [star::refusals::place(&output), output.unwrap_or_default()]
}

// `file_writer::writing::write_file`; returns the number of the refusal, 0 where the call is accepted, and stores its place and the file's length.
#[unsafe(no_mangle)]
pub extern "C" fn gyodaebeun_write_scenario(
    nodes: u32,
    slots: u32,
    limit: u32,
    rule: u32,
    kinds: &[u32],
    cells: &[u32],
    file: &mut [u8],
    report: &mut [u32; 2],
) -> u32
    ensures { ReportedOutput (WriteResult nodes slots limit rule kinds.now cells.now file.old file.new) result report.new }
{
    let output = file_writer::writing::write_file(nodes, slots, limit, rule, kinds, cells, file);
    *report = reported_output(output);
    star::refusals::number(&output)
}

// `scenario_text::answers::print`; returns the number of the refusal, 0 where the call is accepted, and stores its place and the text's length.
#[unsafe(no_mangle)]
pub extern "C" fn gyodaebeun_play_scenario(
    file: &[u8],
    text: &mut [u8],
    report: &mut [u32; 2],
) -> u32
    ensures { ReportedOutput (PrintResult file.now text.old text.new) result report.new }
{
    let output = scenario_text::answers::print(file, text);
    *report = reported_output(output);
    star::refusals::number(&output)
}
