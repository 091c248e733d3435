ghost use Rattle.std.specs.Prelude.{◌∷◌};
ghost use Rattle.semantics.specs.Conditions.{term_number, term_body};
ghost use Rattle.semantics.specs.Operators.{operator_number};
ghost use Rattle.records.specs.declared.kind.TermKind.TheVariants.{ByPrefix};
ghost use Rattle.records.specs.RecordKinds.{term_kind_number};
ghost use Rattle.records.specs.Terms.{term_of};
ghost use Rattle.writing.specs.Writing.{Appends};

use crate::error::WriteError;
use crate::record::record;
use records::{Term, TermKind};
use semantics::Operator;

/// Appends a record of a condition.
fn append(bytes: &mut Vec<u8>, kind: TermKind, body: &[u8]) -> Result<(), WriteError>
    ensures { Appends (term_kind_number kind) body.now bytes.old.items result bytes.new.items }
{
    record(bytes, u16::from(kind), body)
}

/// Appends a comparison with a prefix, whose digits are the rest of the body.
fn with_prefix(
    bytes: &mut Vec<u8>,
    operator: Operator,
    left: u8,
    digits: &[u8],
) -> Result<(), WriteError>
    ensures { Appends (term_kind_number ByPrefix) (operator_number operator ∷ left ∷ digits.now) bytes.old.items result bytes.new.items }
{
    let mut body = vec![in *bytes.allocator(); u8::from(operator), left]?;
    body.extend_from_slice(digits)?;
    append(bytes, TermKind::ByPrefix, body.as_slice())
}

/// Appends a condition record.
pub(crate) fn condition(bytes: &mut Vec<u8>, term: Term<'_>) -> Result<(), WriteError>
    ensures { Appends (term_number (term_of term.entry)) (term_body (term_of term.entry)) bytes.old.items result bytes.new.items }
{
    match term {
        Term::ByColumn(operator, left, right) => {
            append(
                bytes,
                TermKind::ByColumn,
                &[u8::from(operator), left, right],
            )
        }
        Term::ByNumber(operator, left, number) => {
            let [a, b, c, d] = number.to_le_bytes();
            append(
                bytes,
                TermKind::ByNumber,
                &[u8::from(operator), left, a, b, c, d],
            )
        }
        Term::ByPrefix(operator, left, digits) => { with_prefix(bytes, operator, left, digits) }
        Term::And => append(bytes, TermKind::And, &[]),
        Term::Or => append(bytes, TermKind::Or, &[]),
        Term::Not => append(bytes, TermKind::Not, &[]),
    }
}
