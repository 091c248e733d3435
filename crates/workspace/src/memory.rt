ghost use Rattle.std.specs.Prelude.{◌≡◌, length, replicate};
ghost use Rattle.cells.specs.declared.cell.Cell.TheVariants.{Number};
ghost use Rattle.view.specs.declared.masked.Masked.TheVariants.{Value};

use view::Masked;

/// Leaves the number 0 in every cell.
pub fn clear(work: &mut [Masked])
    ensures { work.new ≡ replicate (length work.old) (Value (Number 0)) }
{
    work.fill(Masked::ZERO);
}
