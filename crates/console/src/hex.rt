// Bytes written as pairs of hexadecimal digits.
ghost use Rattle.std.specs.Prelude.{◌≡◌, ℕ, ◌+◌, ◌<◌, length, Some, MatchResult, slice_index};
ghost use Rattle.console.specs.declared.hex.HexFault.TheVariants.{Memory};
ghost use Rattle.console.specs.Hex.{Digits, Unpaired, Unread, digit, hex_bytes, hex_fault_text, paired};

use request::words::is_space;
use std::alloc::{AllocError, AllocFailed, Global};
use std::error::Error;
use std::fmt;

// Why a text is not read.
#[derive(Clone, Copy, PartialEq, Eq, Debug)]
pub enum HexFault {
    // The character at this index is no digit.
    NoDigit(usize),
    // The last digit has no partner.
    OddDigit,
    // There is no memory for the bytes.
    Memory,
}

impl From<AllocError> for HexFault {
    ghost from_gives = { λ _ fault. fault ≡ Memory };

    fn from(_error: AllocError) -> HexFault {
        HexFault::Memory
    }
}

impl<T: Drop> From<AllocFailed<T>> for HexFault {
    ghost from_gives = { λ _ fault. fault ≡ Memory };

    fn from(_refused: AllocFailed<T>) -> HexFault {
        HexFault::Memory
    }
}

impl fmt::Display for HexFault {
    ghost output = { λ fault. Some (hex_fault_text fault) };

    fn fmt<W: fmt::Write>(&self, f: &mut fmt::Formatter<W>) -> fmt::Result {
        match *self {
            HexFault::NoDigit(at) => write!(f, "bad hex: no digit at index {at}"),
            HexFault::OddDigit => write!(f, "bad hex: odd number of digits"),
            HexFault::Memory => write!(f, "no memory for the bytes"),
        }
    }
}

impl Error for HexFault {}

// The value of a digit, of either case.
fn digit_value(c: u8) -> Option<u8>
    ensures { result ≡ digit c }
{
    let value = char::from(c).to_digit(16)?;
    Some(value as u8)
}

// The values of the digits, white space left out.
fn digits(heap: Global, text: &[u8]) -> Result<Vec<u8>, HexFault>
    ensures { MatchResult result (λ v. Digits text.now v.items) (λ e. Unread text.now e) }
{
    let mut values = Vec::new(heap);
    for (i, c) in text.iter().enumerate() {
        if is_space(*c) {
            continue;
        }
        let Some(value) = digit_value(*c) else {
            return Err(HexFault::NoDigit(i));
        };
        values.push(value)?;
    }
    Ok(values)
}

// The bytes of an even number of digits.
fn joined_pairs(heap: Global, values: &[u8]) -> Result<Vec<u8>, HexFault>
    requires { (k : ℕ) → slice_index values.now k < 16 }
    ensures { MatchResult result (λ v. paired values.now ≡ Some v.items) (λ e. Unpaired values.now e) }
{
    let pairs = values.chunks_exact(2);
    if !pairs.remainder().is_empty() {
        return Err(HexFault::OddDigit);
    }
    let mut bytes = Vec::new(heap);
    for pair in pairs {
        bytes.push(pair[0] * 16 + pair[1])?;
    }
    Ok(bytes)
}

// The bytes that a text spells, white space between the digits allowed.
pub fn read_hex(heap: Global, text: &[u8]) -> Result<Vec<u8>, HexFault>
    ensures { MatchResult result (λ v. hex_bytes text.now ≡ Some v.items) (λ e. Unread text.now e) }
{
    let values = digits(heap, text)?;
    joined_pairs(heap, values.as_slice())
}
