// The words that a pixel record's body spells, and the pixel whose words they are.
ghost use Rattle.std.specs.Prelude.{◌≡◌, ◌/◌, ◌≤◌, length, take, slice_get};
ghost use Rattle.std.specs.Iterator.{YieldsFirst, item_count};
ghost use Rattle.tile.specs.Words.{AreWords};
ghost use Rattle.dump.specs.Bytes.{all_zero, body_pixel, words_in, words_left};

use std::array;
use tile::kind::Pixel;

// The most words that a pixel record spells.
pub const MOST_WORDS: usize = 5;

// The words of a body that are still to come.
#[derive(Drop)]
pub struct BodyWords<'a> {
    rest: &'a [u8],
}

impl<'a> Iterator for BodyWords<'a> {
    type Item = u32;

    ghost next_gives = { YieldsFirst words_left };

    ghost remaining = { item_count words_left };

    #[tactic(auto, using(crate::proofs::Spelled::length_words_in))]
    fn next(&mut self) -> Option<u32> {
        let (word, rest) = self.rest.split_first_chunk::<4>()?;
        self.rest = rest;
        Some(u32::from_be_bytes(*word))
    }
}

// The words that a body spells, high byte first.
pub fn body_words(body: &[u8]) -> BodyWords<'_>
    ensures { words_left result ≡ words_in body.now }
{
    BodyWords { rest: body }
}

// The word with this index, if the body spells so many.
pub fn body_word(body: &[u8], index: usize) -> Option<u32>
    ensures { result ≡ slice_get (words_in body.now) index }
{
    if index >= body.len() / 4 {
        return None;
    }
    body_words(&body[4 * index..]).next()
}

// Whether the body spells only zero words, as blank alone does.
pub fn is_blank(body: &[u8]) -> bool
    ensures { result ≡ all_zero (words_in body.now) }
{
    body_words(body).all(|word| word == 0)
}

// The words of a body, then zeros.
// Stays: the reader has no heap, so the words lie in an array as long as the longest pixel, and the body tells how many count.
fn spelled(body: &[u8]) -> [u32; MOST_WORDS]
    requires { length body.now ≤ 20 }
    ensures size { length result ≡ 5 }
    ensures words { take (length body.now / 4) result ≡ words_in body.now }
{
    array::from_fn(|index| body_word(body, index).unwrap_or(0))
}

// The pixel whose words the body of a pixel record spells.
#[tactic(auto, using(crate::proofs::Spelled::words_fit))]
pub fn read_body<P: Pixel>(body: &[u8]) -> Option<P>
    ensures value { result ≡ body_pixel P.Pixel.model body.now }
    ensures words { AreWords (words_in body.now) }
{
    if body.len() > 4 * MOST_WORDS {
        return None;
    }
    let words = spelled(body);
    P::read(&words[..body.len() / 4])
}
