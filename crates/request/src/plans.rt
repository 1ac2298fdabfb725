// Requests for plans.
ghost use Rattle.std.specs.Prelude.{◌≡◌, IfOk};
ghost use Rattle.std.specs.Option.{option_map};
ghost use Rattle.request.specs.Plans.{maker_words, plan_asked, plan_named};
ghost use Rattle.request.specs.Requests.{call_and_words, told};
ghost use Rattle.request.specs.Words.{words_in};

use crate::requests::{Request, numbered};
use crate::words::{Cut, first_word};
use std::alloc::{AllocError, Global};

// A maker of plans.
#[derive(Clone, Copy, PartialEq, Eq, Debug)]
pub enum Maker {
    Swap,
    Radix,
}

// A maker and the numbers that it is given.
pub type PlanRequest = Request<Maker>;

// The maker of this name.
// Stays: a word that is no name has no error to tell, so `TryFrom` is no plainer than an `Option`.
fn maker_named(word: &[u8]) -> Option<Maker>
    ensures { result ≡ plan_named word.now }
{
    match word {
        b"swap" => Some(Maker::Swap),
        b"radix" => Some(Maker::Radix),
        _ => None,
    }
}

// The maker that a line names, with the text behind its name.
fn maker_in(line: &[u8]) -> Option<Cut<'_, Maker>>
    ensures { option_map call_and_words result ≡ maker_words (words_in line.now) }
{
    let Cut { front, rest } = first_word(line)?;
    let front = maker_named(front)?;
    Some(Cut { front, rest })
}

// The request that a line makes, if it names a maker and then only numbers.
pub fn plan_request(heap: Global, line: &[u8]) -> Result<Option<PlanRequest>, AllocError>
    ensures { IfOk result (λ o. option_map told o ≡ plan_asked (words_in line.now)) }
{
    numbered(heap, maker_in(line))
}
