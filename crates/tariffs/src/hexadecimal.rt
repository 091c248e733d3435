ghost use Rattle.std.specs.Prelude.{◌≡◌, ◌<◌, ◌⊎◌, Ok, Err, IfOk, IfErr, IfSome};
ghost use Rattle.hex.specs.Hex.{decode_of};
ghost use Rattle.hex.specs.declared.error.FromHexError.TheVariants.{OutOfMemory};
ghost use Rattle.tariffs.specs.Hexadecimal.{digits_in, value_of};

use hex::FromHexError;
use std::alloc::Global;

/// The value of a hexadecimal digit, with a small letter.
fn value(digit: u8) -> Option<u8>
    ensures value { result ≡ value_of digit }
    ensures small { IfSome result (λ value. value < 16) }
{
    match digit {
        b'0'..=b'9' => Some(digit - b'0'),
        b'a'..=b'f' => Some(digit - b'a' + 10),
        _ => None,
    }
}

/// The bytes that hexadecimal digits stand for. What is no digit is passed over, and so is a last digit
/// by itself. A byte is pushed as its two digits come: the digits stand in no buffer of their own.
pub fn from_hex(heap: Global, text: &str) -> Result<Vec<u8>, FromHexError>
    ensures bytes { IfOk result (λ bytes. decode_of (digits_in text.now) ≡ Ok bytes.items) }
    ensures err { IfErr result (λ e. (e ≡ OutOfMemory) ⊎ (decode_of (digits_in text.now) ≡ Err e)) }
{
    let mut bytes = Vec::new(heap);
    let mut high = None;
    for digit in text.bytes() {
        if let Some(low) = value(digit) {
            match high {
                None => high = Some(low),
                Some(first) => {
                    let byte = first * 16 + low;
                    bytes.push(byte).map_err(|_| FromHexError::OutOfMemory)?;
                    high = None;
                }
            }
        }
    }
    Ok(bytes)
}
