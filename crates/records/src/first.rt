ghost use Rattle.std.specs.Prelude.{◌≡◌, ℕ};
ghost use Rattle.semantics.specs.declared.refusal.Refusal.{Refusal};
ghost use Rattle.semantics.specs.Bytes.{first_record};
ghost use Rattle.semantics.specs.Reading.{empty_form, column_side, number_side, prefix_side, comparison_form, term_form, record_form};
ghost use Rattle.semantics.specs.declared.refusal.Refusal.TheVariants.{WrongForm};
ghost use Rattle.records.specs.Firsts.{FirstIs};
ghost use Rattle.records.specs.RecordKinds.{record_kind_number};
ghost use Rattle.records.specs.Saying.{FormIs};
ghost use Rattle.records.specs.Terms.{TermIs};

use crate::condition::is_condition;
use crate::kind::{RecordKind, TermKind};
use crate::record::Record;
use crate::term::Term;
use cells::is_prefix;
use semantics::Operator;

/// The first record of some bytes: its kind, its body, and the bytes after it.
#[derive(Clone, Copy, PartialEq, Eq, Debug)]
pub struct First<'q> {
    pub kind: u16,
    pub body: &'q [u8],
    pub rest: &'q [u8],
}

/// The first record, if its head and its body are whole.
pub fn first_record(bytes: &[u8]) -> Option<First<'_>>
    ensures { FirstIs result (first_record bytes.now) }
{
    let [l0, l1, k0, k1, behind @ ..] = bytes else {
        return None;
    };
    let size = usize::from(u16::from_le_bytes([*l0, *l1]));
    let kind = u16::from_le_bytes([*k0, *k1]);
    let (body, rest) = behind.split_at_checked(size)?;
    Some(First { kind, body, rest })
}

impl<'q> First<'q> {
    /// What the record says as one of a query, of this kind, if its body has the form of the kind.
    pub(crate) fn record(self, kind: RecordKind) -> Option<Record<'q>>
        ensures { (n : ℕ) → FormIs n result (record_form (WrongForm n) (record_kind_number kind) self.entry.body.now) }
    {
        match (kind, self.body) {
            (RecordKind::Table, [table]) => Some(Record::Table(*table)),
            (RecordKind::Select, body) if is_condition(body) => Some(Record::Select(body)),
            (RecordKind::Project, listed) if (1..=8).contains(&listed.len()) => {
                Some(Record::Project(listed))
            }
            (RecordKind::Product, []) => Some(Record::Product),
            (RecordKind::Union, []) => Some(Record::Union),
            (RecordKind::Difference, []) => Some(Record::Difference),
            _ => None,
        }
    }

    /// What the record says as one of a condition, if its body has the form of its kind.
    #[tactic(auto, using(crate::proofs::Forms::prefix_said, crate::proofs::Forms::prefix_refused))]
    pub(crate) fn term(self) -> Option<Term<'q>>
        ensures { (e : Refusal) → TermIs e result (term_form e self.entry.kind self.entry.body.now) }
    {
        match (TermKind::try_from(self.kind).ok()?, self.body) {
            (TermKind::ByColumn, [operator, left, right]) => Some(Term::ByColumn(
                Operator::try_from(*operator).ok()?,
                *left,
                *right,
            )),
            (TermKind::ByNumber, [operator, left, b0, b1, b2, b3]) => Some(Term::ByNumber(
                Operator::try_from(*operator).ok()?,
                *left,
                u32::from_le_bytes([*b0, *b1, *b2, *b3]),
            )),
            (TermKind::ByPrefix, [operator, left, digits @ ..]) => {
                let term = Term::ByPrefix(Operator::try_from(*operator).ok()?, *left, digits);
                is_prefix(digits).then_some(term)
            }
            (TermKind::And, []) => Some(Term::And),
            (TermKind::Or, []) => Some(Term::Or),
            (TermKind::Not, []) => Some(Term::Not),
            _ => None,
        }
    }
}
