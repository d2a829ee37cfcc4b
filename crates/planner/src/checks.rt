// The checks of a plan, in document 01's order.
#![tactic(auto, using(star::proofs::RefusalLaws::sized, star::proofs::RefusalLaws::long_demand), unfolding(star::specs::Checks::refuse, star::specs::Checks::then, crate::specs::Checks::lent_short_verdict, crate::specs::Checks::plan_verdict))]

ghost use Rattle.std.specs.Prelude.{◌≡◌, IfOk};
ghost use Rattle.star.specs.Refusals.{Sizes, verdict_of};
ghost use Rattle.star.specs.Rules.{rule_number};
ghost use Rattle.planner.specs.Checks.{lent_short_verdict, plan_verdict};

use star::checks::{demand_above, demand_short, sizes};
use star::refusals::Refusal;
use star::rules::Rule;

// Any of the three tables that a plan writes too short (5), given how many cells each has.
pub fn lent_short(
    n: usize,
    l: usize,
    kept: usize,
    withdrawn: usize,
    schedule: usize,
) -> Result<(), Refusal>
    requires { Sizes n l }
    ensures { result ≡ lent_short_verdict n l kept withdrawn schedule }
{
    let cells = n * n;
    if kept < cells || withdrawn < cells || schedule < l * n {
        return Err(Refusal::TableShort);
    }
    Ok(())
}

// The rule, which comes as any number, as C gives it, or which refusal is given; the last three numbers say how many cells kept, withdrawn and schedule have.
pub fn plan_verdict(
    nodes: u32,
    slots: u32,
    rule: u32,
    demand: &[u32],
    kept: usize,
    withdrawn: usize,
    schedule: usize,
) -> Result<Rule, Refusal>
    ensures verdict { verdict_of result ≡ plan_verdict nodes slots rule demand.now kept withdrawn schedule }
    ensures rule { IfOk result (λ r. rule_number r ≡ rule) }
{
    sizes(nodes, slots)?;
    let known = Rule::try_from(rule)?;
    let n = nodes as usize;
    demand_short(n, demand.len())?;
    lent_short(n, slots as usize, kept, withdrawn, schedule)?;
    demand_above(n, demand)?;
    Ok(known)
}
