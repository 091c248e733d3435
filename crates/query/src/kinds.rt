ghost use Rattle.std.specs.Prelude.{◌≡◌, ◌+◌, ◌<◌, ◌≤◌, ◌&&◌, [], ◌∷◌, ◌++◌, map, length, nat_lt, slice_get, MatchOption};
ghost use Rattle.semantics.specs.Conditions.{kind_at, named_comparison, fitting_comparison};
ghost use Rattle.semantics.specs.Kinds.{same_kind};
ghost use Rattle.semantics.specs.Lists.{pairwise};
ghost use Rattle.semantics.specs.Operators.{takes};
ghost use Rattle.records.specs.Terms.{passes, term_of};
ghost use Rattle.query.specs.Kinds.{kinds_in, passing_comparison, PickedIs, JoinedIs};

use bounded::Bounded;
use records::Term;
use semantics::{Column, Kind, Operator};

/// The kinds of a relation's columns, at most 8.
#[derive(Clone, Copy, PartialEq, Eq, Debug)]
pub struct Kinds {
    list: Bounded<Kind, 8>,
}

impl Kinds {
    /// No columns.
    pub(crate) fn none() -> Kinds
        ensures { kinds_in result ≡ [] }
    {
        Kinds {
            list: Bounded::new(Kind::Number),
        }
    }

    /// The kinds of the columns.
    pub fn listed(&self) -> &[Kind]
        ensures { result.now ≡ kinds_in self.now }
    {
        self.list.as_slice()
    }

    /// The kind of a column, if there is one of this number.
    fn get(&self, column: u8) -> Option<Kind>
        ensures { result ≡ slice_get (kinds_in self.now) column }
    {
        self.listed().get(usize::from(column)).copied()
    }

    /// The kind of a column, where there is one of this number.
    #[tactic(auto, using(crate::proofs::Widths::kind_got))]
    fn at(&self, column: u8) -> Kind
        ensures { result ≡ kind_at (kinds_in self.now) column }
    {
        self.get(column).unwrap_or(Kind::Number)
    }

    /// Whether there is a column of this number.
    fn has(&self, column: u8) -> bool
        ensures { result ≡ nat_lt column (length (kinds_in self.now)) }
    {
        self.get(column).is_some()
    }

    /// Whether the columns that a term names exist.
    pub(crate) fn has_columns_of(&self, term: Term<'_>) -> bool
        ensures { result ≡ passes (named_comparison (kinds_in self.now)) (term_of term.entry) }
    {
        match term {
            Term::ByColumn(_, left, right) => self.has(left) && self.has(right),
            Term::ByNumber(_, left, _) | Term::ByPrefix(_, left, _) => self.has(left),
            _ => true,
        }
    }

    /// Whether the sides that a term compares are of one kind, which takes its operator.
    pub(crate) fn fit(&self, term: Term<'_>) -> bool
        ensures { result ≡ passes (fitting_comparison (kinds_in self.now)) (term_of term.entry) }
    {
        match term {
            Term::ByColumn(operator, left, right) => compares(
                operator,
                self.at(left),
                self.at(right),
            ),
            Term::ByNumber(operator, left, _) => compares(operator, self.at(left), Kind::Number),
            Term::ByPrefix(operator, left, _) => compares(operator, self.at(left), Kind::Prefix),
            _ => true,
        }
    }

    /// Whether the columns that a term names exist, and the sides that it compares fit.
    pub(crate) fn pass(&self, term: Term<'_>) -> bool
        ensures { result ≡ passes (passing_comparison (kinds_in self.now)) (term_of term.entry) }
    {
        self.has_columns_of(term) && self.fit(term)
    }

    /// The kinds of a table's columns.
    pub(crate) fn of_columns(columns: &[Column]) -> Kinds
        requires { length columns.now ≤ 8 }
        ensures { kinds_in result ≡ map (λ column. column.kind) columns.now }
    {
        let mut kinds = Kinds::none();
        for column in columns {
            kinds.list.push(column.kind).unwrap();
        }
        kinds
    }

    /// The kinds of the listed columns, where there are such columns.
    pub(crate) fn picked(&self, columns: &[u8]) -> Option<Kinds>
        requires { length columns.now ≤ 8 }
        ensures { PickedIs (kinds_in self.now) columns.now result }
    {
        let mut kinds = Kinds::none();
        for column in columns {
            kinds.list.push(self.get(*column)?).unwrap();
        }
        Some(kinds)
    }

    /// These kinds and then those, if they are at most 8.
    pub(crate) fn joined(&self, right: &Kinds) -> Option<Kinds>
        ensures { JoinedIs (kinds_in self.now) (kinds_in right.now) result }
    {
        let mut kinds = *self;
        kinds.list.extend(right.listed()).ok()?;
        Some(kinds)
    }

    /// Whether the columns are as many, and of the same kinds.
    pub(crate) fn same(&self, right: &Kinds) -> bool
        ensures { result ≡ pairwise same_kind (kinds_in self.now) (kinds_in right.now) }
    {
        self.listed() == right.listed()
    }
}

/// Whether the kind takes the operator.
fn takes(kind: Kind, operator: Operator) -> bool
    ensures { result ≡ takes kind operator }
{
    match operator {
        Operator::Equal | Operator::Unequal => true,
        Operator::Less | Operator::AtMost => kind == Kind::Number,
        Operator::Covers | Operator::Shorter => kind == Kind::Prefix,
    }
}

/// Whether both sides are of one kind, which takes the operator.
fn compares(operator: Operator, left: Kind, right: Kind) -> bool
    ensures { result ≡ (takes left operator && same_kind left right) }
{
    takes(left, operator) && left == right
}
