// Requests: a call with the numbers that it is given.
ghost use Rattle.std.specs.Prelude.{◌≡◌, IfOk};
ghost use Rattle.std.specs.Option.{option_map};
ghost use Rattle.request.specs.Requests.{call_and_words, numbered, told};

use crate::numbers::numbers_in;
use crate::words::Cut;
use std::alloc::{AllocError, Global};

// What a line asks for, and its numbers.
#[derive(Drop)]
pub struct Request<C> {
    pub call: C,
    pub numbers: Vec<u32>,
}

// The request of a line that names a call, if only numbers stand behind the name.
pub(crate) fn numbered<C: Drop>(
    heap: Global,
    named: Option<Cut<'_, C>>,
) -> Result<Option<Request<C>>, AllocError>
    ensures { IfOk result (λ o. option_map told o ≡ numbered (option_map call_and_words named.entry)) }
{
    let Some(Cut { front, rest }) = named else {
        return Ok(None);
    };
    let numbers = numbers_in(heap, rest)?;
    Ok(numbers.map(|numbers| Request {
        call: front,
        numbers,
    }))
}
