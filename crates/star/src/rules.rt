// The two rules by which a demand is cut to its capacities.
#![tactic(auto, unfolding(crate::specs::Checks::refuse, crate::specs::Checks::rule_verdict))]

ghost use Rattle.star.specs.Rules.{RuleOf};

use crate::refusals::Refusal;

// The fair rule, and the one that withdraws least.
#[derive(Clone, Copy, Debug, PartialEq, Eq)]
pub enum Rule {
    Fair,
    Least,
}

// The rule with a number (3).
impl TryFrom<u32> for Rule {
    type Error = Refusal;

    ghost try_from_gives = { RuleOf };

    fn try_from(number: u32) -> Result<Rule, Refusal> {
        match number {
            0 => Ok(Rule::Fair),
            1 => Ok(Rule::Least),
            _ => Err(Refusal::Rule),
        }
    }
}
