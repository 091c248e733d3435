ghost use Rattle.writing.specs.Writing.{Appends};

use crate::error::WriteError;

/// Appends a record: the length of its body in two bytes, its kind in two bytes, and its body.
pub(crate) fn record(bytes: &mut Vec<u8>, kind: u16, body: &[u8]) -> Result<(), WriteError>
    ensures { Appends kind body.now bytes.old.items result bytes.new.items }
{
    let size = u16::try_from(body.len())?;
    bytes.reserve(4 + body.len())?;
    bytes.extend_from_slice(&size.to_le_bytes())?;
    bytes.extend_from_slice(&kind.to_le_bytes())?;
    bytes.extend_from_slice(body)?;
    Ok(())
}
