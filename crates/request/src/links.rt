// Requests for calls of a link.
ghost use Rattle.std.specs.Prelude.{◌≡◌, IfOk};
ghost use Rattle.std.specs.Option.{option_map};
ghost use Rattle.request.specs.Links.{call_named, kind_named, link_asked, named_words};
ghost use Rattle.request.specs.Requests.{call_and_words, told};
ghost use Rattle.request.specs.Words.{words_in};

use crate::requests::{Request, numbered};
use crate::words::{Cut, first_word};
use std::alloc::{AllocError, Global};

// What a line asks of a link.
#[derive(Clone, Copy, PartialEq, Eq, Debug)]
pub enum LinkCall {
    Cell,
    Line,
    Trim,
    Send,
    Read,
    Clear,
    Waiting,
    Area,
}

// A call and its numbers.
pub type LinkRequest = Request<LinkCall>;

// The call of this name.
// Stays: a word that is no name has no error to tell, so `TryFrom` is no plainer than an `Option`.
fn call_named(word: &[u8]) -> Option<LinkCall>
    ensures { result ≡ call_named word.now }
{
    match word {
        b"send" => Some(LinkCall::Send),
        b"read" => Some(LinkCall::Read),
        b"clear" => Some(LinkCall::Clear),
        b"waiting" => Some(LinkCall::Waiting),
        b"area" => Some(LinkCall::Area),
        _ => None,
    }
}

// What is made by the two words `link` or `layer` and its kind.
fn kind_named(word: &[u8], kind: &[u8]) -> Option<LinkCall>
    ensures { result ≡ kind_named word.now kind.now }
{
    match (word, kind) {
        (b"link", b"cell") => Some(LinkCall::Cell),
        (b"link", b"line") => Some(LinkCall::Line),
        (b"layer", b"trim") => Some(LinkCall::Trim),
        _ => None,
    }
}

// The call that a line names, with the text behind the name.
fn call_in(line: &[u8]) -> Option<Cut<'_, LinkCall>>
    ensures { option_map call_and_words result ≡ named_words (words_in line.now) }
{
    let Cut { front: word, rest } = first_word(line)?;
    if let Some(front) = call_named(word) {
        return Some(Cut { front, rest });
    }
    let Cut { front: kind, rest } = first_word(rest)?;
    let front = kind_named(word, kind)?;
    Some(Cut { front, rest })
}

// The request that a line makes, if it names a call and then only numbers.
pub fn link_request(heap: Global, line: &[u8]) -> Result<Option<LinkRequest>, AllocError>
    ensures { IfOk result (λ o. option_map told o ≡ link_asked (words_in line.now)) }
{
    numbered(heap, call_in(line))
}
