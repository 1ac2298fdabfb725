// Numbers written in decimal.
ghost use Rattle.std.specs.Prelude.{◌≡◌, IfOk, vec_items};
ghost use Rattle.std.specs.Option.{option_map};
ghost use Rattle.request.specs.Numbers.{number, numbers};
ghost use Rattle.request.specs.Words.{words_in};

use crate::words::Words;
use std::alloc::{AllocError, Global};

// The number that a word writes, if it writes one that fits.
// Stays: the library's `parse` takes text and a sign, so it needs two tests before it that this loop does not.
pub fn number_of(word: &[u8]) -> Option<u32>
    ensures { result ≡ number word.now }
{
    if word.is_empty() {
        return None;
    }
    let mut value: u32 = 0;
    for c in word {
        if !c.is_ascii_digit() {
            return None;
        }
        value = value.checked_mul(10)?.checked_add(u32::from(*c - b'0'))?;
    }
    Some(value)
}

// The words of a text as numbers, if each writes one that fits.
pub fn numbers_in(heap: Global, text: &[u8]) -> Result<Option<Vec<u32>>, AllocError>
    ensures { IfOk result (λ o. option_map vec_items o ≡ numbers (words_in text.now)) }
{
    let mut values = Vec::new(heap);
    let words = Words { left: text };
    for word in words {
        let Some(value) = number_of(word) else {
            return Ok(None);
        };
        values.push(value)?;
    }
    Ok(Some(values))
}
