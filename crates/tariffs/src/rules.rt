ghost use Rattle.std.specs.Prelude.{◌≡◌};
ghost use Rattle.laws.specs.Sample.{filters};
ghost use Rattle.semantics.specs.Policies.{filters_mean};
ghost use Rattle.tariffs.specs.Rules.{broker_rule, broker_rules};

use policy::Filters;
use semantics::{Rule, Sign, Test};

/// A rule for broker 7 and a column of table 0.
fn rule(column: usize, sign: Sign, test: Test) -> Rule
    ensures { result ≡ broker_rule column sign test }
{
    Rule {
        broker: 7,
        table: 0,
        column,
        sign,
        test,
    }
}

/// Broker 7 may see all three columns of table 0, but not the prefixes of carrier 2: the policy of the
/// worked examples.
#[tactic(auto, using(crate::proofs::Adding::next_rule))]
pub fn filters() -> Filters
    ensures rules { result ≡ broker_rules }
    ensures meaning { filters_mean result ≡ filters }
{
    let carrier_two = Test::Holds {
        column: 1,
        number: 2,
    };
    let rules = [
        rule(0, Sign::Allow, Test::Always),
        rule(1, Sign::Allow, Test::Always),
        rule(2, Sign::Allow, Test::Always),
        rule(0, Sign::Prohibit, carrier_two),
    ];
    let mut filters = Filters::new();
    for rule in rules {
        filters.add(rule).unwrap();
    }
    filters
}
