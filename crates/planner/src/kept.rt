// What is kept of a demand, by the rule.
ghost use Rattle.std.specs.Prelude.{◌≡◌};
ghost use Rattle.star.specs.Tables.{Demands};
ghost use Rattle.star.specs.Lines.{total};
ghost use Rattle.star.specs.Rooms.{Square};
ghost use Rattle.star.specs.Rules.{rule_number};
ghost use Rattle.planner.specs.Work.{KeepRoom, KeptByRule};

use star::lines::line_sum;
use star::rules::Rule;
use star::tables::clear;

// Writes kept and withdrawn by the rule; under the fair one nothing is withdrawn.
pub fn keep_by_rule(
    n: usize,
    rule: Rule,
    cap: &[u32],
    demand: &[u32],
    kept: &mut [u32],
    withdrawn: &mut [u32],
)
    requires { KeepRoom n cap.now demand.now kept.old withdrawn.old }
    ensures { KeptByRule n (rule_number rule) cap.now demand.now kept.old withdrawn.old kept.new withdrawn.new }
{
    match rule {
        Rule::Fair => {
            fair::cut(n, cap, demand, kept);
            clear(n, withdrawn);
        }
        Rule::Least => {
            let mut marks = [0u8; 128];
            least::withdrawn::withdraw(n, cap, demand, withdrawn, &mut marks);
            least::kept::keep(n, cap, demand, withdrawn, kept);
        }
    }
}

// The sum of all cells, row by row.
pub fn total(n: usize, table: &[u32]) -> u32
    requires { (Square n table.now) × (Demands n table.now) }
    ensures { result ≡ total n table.now }
{
    let mut sum = 0;
    for i in 0..n {
        sum += line_sum(n, table, i);
    }
    sum
}
