// What the words behind the program's name ask for.
ghost use Rattle.std.specs.Prelude.{map};
ghost use Rattle.console.specs.Requests.{Asked};

use std::convert::AsStr;

// A request, or the first word of what is none.
#[derive_where(Clone, Copy)]
pub enum Request<'a, W = String> {
    Help,
    InspectLines,
    InspectFile(&'a str),
    // What stands behind `plan`.
    Plan(&'a [W]),
    Link,
    Unknown(&'a str),
}

// The request that the words make.
pub fn request_of<W: AsStr>(words: &[W]) -> Request<'_, W>
    ensures { Asked W.text (map W.text words.now) result }
{
    let [first, rest @ ..] = words else {
        return Request::Help;
    };
    let word = first.as_str();
    match word {
        "help" => match rest {
            [] => Request::Help,
            _ => Request::Unknown(word),
        },
        "inspect" => match rest {
            [] => Request::InspectLines,
            [path] => Request::InspectFile(path.as_str()),
            _ => Request::Unknown(word),
        },
        "plan" => Request::Plan(rest),
        "link" => match rest {
            [] => Request::Link,
            _ => Request::Unknown(word),
        },
        _ => Request::Unknown(word),
    }
}
