// The groups of checks that entries share, in document 01's order.
#![tactic(auto, unfolding(crate::specs::Checks::refuse, crate::specs::Checks::then, crate::specs::Checks::sizes_verdict, crate::specs::Checks::rule_and_limit_verdict, crate::specs::Checks::ranges_verdict, crate::specs::Checks::demand_short_verdict))]

ghost use Rattle.std.specs.Prelude.{◌≡◌, ◌≤◌, IfOk};
ghost use Rattle.star.specs.Refusals.{outside, verdict_of};
ghost use Rattle.star.specs.Checks.{sizes_verdict, rule_and_limit_verdict, ranges_verdict, demand_short_verdict, demand_above_verdict};
ghost use Rattle.star.specs.Rules.{rule_number};
ghost use Rattle.star.specs.Rooms.{Square};

use crate::lines::first_above;
use crate::refusals::Refusal;
use crate::rules::Rule;

// Whether a number is outside its range.
fn outside(low: u32, high: u32, x: u32) -> bool
    ensures { result ≡ outside low high x }
{
    !(low..=high).contains(&x)
}

// N (1) and L (2).
pub fn sizes(nodes: u32, slots: u32) -> Result<(), Refusal>
    ensures { result ≡ sizes_verdict nodes slots }
{
    if outside(1, 64, nodes) {
        return Err(Refusal::Nodes);
    }
    if outside(1, 1024, slots) {
        return Err(Refusal::Slots);
    }
    Ok(())
}

// The rule (3) and B (7). A rule comes as a number, from C or from a file, and is a Rule from here on.
fn rule_and_limit(rule: u32, limit: u32) -> Result<Rule, Refusal>
    ensures verdict { verdict_of result ≡ rule_and_limit_verdict rule limit }
    ensures rule { IfOk result (λ r. rule_number r ≡ rule) }
{
    let known = Rule::try_from(rule)?;
    if outside(1, 65535, limit) {
        return Err(Refusal::QueueLimit);
    }
    Ok(known)
}

// N (1), L (2), the rule (3) and B (7).
pub fn ranges(nodes: u32, slots: u32, rule: u32, limit: u32) -> Result<Rule, Refusal>
    ensures verdict { verdict_of result ≡ ranges_verdict nodes slots rule limit }
    ensures rule { IfOk result (λ r. rule_number r ≡ rule) }
{
    sizes(nodes, slots)?;
    rule_and_limit(rule, limit)
}

// A demand or arrivals of so many cells, too short (4).
pub fn demand_short(n: usize, cells: usize) -> Result<(), Refusal>
    requires { n ≤ 64 }
    ensures { result ≡ demand_short_verdict n cells }
{
    if cells < n * n {
        return Err(Refusal::DemandShort);
    }
    Ok(())
}

// A demand or arrival above 65,535 (6).
pub fn demand_above(n: usize, demand: &[u32]) -> Result<(), Refusal>
    requires { Square n demand.now }
    ensures { result ≡ demand_above_verdict n demand.now }
{
    match first_above(n, demand) {
        Some(cell) => Err(Refusal::DemandAbove { cell: cell as u32 }),
        None => Ok(()),
    }
}
