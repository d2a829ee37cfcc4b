// What a plan or a frame reports where it is accepted.
ghost use Rattle.std.specs.Prelude.{◌≡◌};
ghost use Rattle.planner.specs.Plans.{report_of};

use star::refusals::Refusal;

// The figures of a plan: what all pairs keep, what is refused of the demand, and the reconfigurations.
#[derive(Clone, Copy, Debug, Default, PartialEq, Eq)]
pub struct Report {
    pub kept: u32,
    pub refused: u32,
    pub reconfigurations: u32,
}

// The report of an answer; a refusal's figures are 0.
pub fn report_of(answer: Result<Report, Refusal>) -> Report
    ensures { result ≡ report_of answer }
{
    answer.unwrap_or_default()
}
