// Bytes in hexadecimal: two digits for each, in either case.
ghost use Rattle.std.specs.Prelude.{◌≡◌, ◌<◌, IfSome, MatchResult};
ghost use Rattle.recorded.specs.Hex.{value_of, byte_of, Spells, Spoils};

use crate::fault::Fault;
use std::alloc::Global;

// The value of a digit.
fn digit_value(digit: u8) -> Option<u32>
    ensures is { result ≡ value_of digit }
    ensures small { IfSome result (λ v. v < 16) }
{
    char::from(digit).to_digit(16)
}

// The byte that two digits spell.
fn byte_of(high: u8, low: u8) -> Option<u8>
    ensures { result ≡ byte_of high low }
{
    let sixteens = digit_value(high)?;
    let ones = digit_value(low)?;
    Some((16 * sixteens + ones) as u8)
}

// The bytes that digits spell.
pub fn decode_hex(heap: Global, digits: &[u8]) -> Result<Vec<u8>, Fault>
    ensures { MatchResult result (λ v. Spells digits.now v.items) (Spoils digits.now) }
{
    let (pairs, []) = digits.as_chunks::<2>() else {
        return Err(Fault::OddDigits);
    };
    let mut bytes = Vec::new(heap);
    for [high, low] in pairs {
        bytes.push(byte_of(*high, *low).ok_or(Fault::NotHex)?)?;
    }
    Ok(bytes)
}
