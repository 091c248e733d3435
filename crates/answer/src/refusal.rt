ghost use Rattle.std.specs.Prelude.{◌≡◌, ◌<◌, ◌≤◌};
ghost use Rattle.semantics.specs.declared.refusal.Refusal.TheVariants.{TooManyRows};

use semantics::Refusal;

/// A number of records, or that of one, as the place of a refusal.
pub(crate) fn place(number: usize) -> u8
    requires { number ≤ 15 }
    ensures { result ≡ number }
{
    number as u8
}

/// The refusal of the record of this number, whose answer has too many rows.
pub(crate) fn too_many_rows(number: usize) -> Refusal
    requires { number < 15 }
    ensures { result ≡ TooManyRows number }
{
    Refusal::TooManyRows(place(number))
}
