ghost use Rattle.std.specs.Prelude.{◌≡◌, [], map, nat_lt};
ghost use Rattle.cells.specs.Cells.{cell_value};
ghost use Rattle.semantics.specs.Outcomes.{Steps};
ghost use Rattle.semantics.specs.Policies.{holds, applies, counts, some_rule, test_column, filters_mean, ruled, ruled_mean, Means};

use crate::number::number_at;
use crate::policy::Policy;
use bounded::Bounded;
use cells::Cell;
use semantics::{Mark, Refusal, Rule, Sign, Test};
use std::marker::Model;

/// A policy of at most 16 rules, in the order in which they were added.
#[derive(Drop)]
pub struct Filters {
    rules: Bounded<Rule, 16>,
}

impl Model for Filters {
    ghost use Rattle.std.specs.Prelude.{List};
    ghost use Rattle.semantics.specs.declared.rule.Rule.{Rule};
    ghost use Rattle.bounded.specs.Bounded.{items};

    ghost Value = { List Rule };

    ghost view = { λ filters. items filters.rules };
}

/// Whether the test holds for the row.
fn holds(test: Test, row: &[Cell]) -> bool
    ensures { result ≡ holds test (map cell_value row.now) }
{
    match test {
        Test::Always => true,
        Test::Holds { column, number } => number_at(row, column) == Some(number),
    }
}

/// Whether the rule is about this broker, table and column, and its test holds for the row.
fn applies(rule: Rule, broker: u16, table: usize, row: &[Cell], column: usize) -> bool
    ensures { result ≡ applies broker table (map cell_value row.now) column rule }
{
    rule.broker == broker && rule.table == table && rule.column == column && holds(rule.test, row)
}

/// Whether the rule has this sign and applies.
#[tactic(auto, using(crate::proofs::Filtering::equal_signs))]
fn counts(rule: Rule, sign: Sign, broker: u16, table: usize, row: &[Cell], column: usize) -> bool
    ensures { result ≡ counts sign broker table (map cell_value row.now) column rule }
{
    rule.sign == sign && applies(rule, broker, table, row, column)
}

/// Whether a table may have the column that the test names, if it names one.
fn may_test(test: Test) -> bool
    ensures { result ≡ nat_lt (test_column test) 8 }
{
    match test {
        Test::Always => true,
        Test::Holds { column, number: _ } => column < 8,
    }
}

impl Filters {
    /// Filters without rules, which hide all.
    pub fn new() -> Filters
        ensures { result ≡ [] }
    {
        let rule = Rule {
            broker: 0,
            table: 0,
            column: 0,
            sign: Sign::Prohibit,
            test: Test::Always,
        };
        Filters {
            rules: Bounded::new(rule),
        }
    }

    /// The rules, in the order in which they were added.
    pub fn rules(&self) -> &[Rule]
        ensures { result.now ≡ self.now }
    {
        self.rules.as_slice()
    }

    /// Whether some rule of this sign applies.
    fn some_rule(&self, sign: Sign, broker: u16, table: usize, row: &[Cell], column: usize) -> bool
        ensures { result ≡ some_rule sign self.now broker table (map cell_value row.now) column }
    {
        self.rules()
            .iter()
            .any(|rule| counts(*rule, sign, broker, table, row, column))
    }

    /// Adds a rule.
    pub fn add(&mut self, rule: Rule) -> Result<(), Refusal>
        ensures step { Steps result (ruled self.old rule) self.old self.new }
        ensures meaning { Means result (filters_mean self.old) (ruled_mean self.old rule) (filters_mean self.new) }
    {
        if rule.table >= 4 {
            return Err(Refusal::NoTable);
        }
        if rule.column >= 8 || !may_test(rule.test) {
            return Err(Refusal::NoColumn);
        }
        self.rules.push(rule).or(Err(Refusal::TooManyRules))
    }
}

impl Policy for Filters {
    ghost meaning = { filters_mean };

    fn mark(&self, broker: u16, table: usize, row: &[Cell], column: usize) -> Mark {
        let allowed = self.some_rule(Sign::Allow, broker, table, row, column);
        let prohibited = self.some_rule(Sign::Prohibit, broker, table, row, column);
        if allowed && !prohibited {
            Mark::Shown
        } else {
            Mark::Hidden
        }
    }
}
