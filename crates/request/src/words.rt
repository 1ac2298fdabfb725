// The words of a text.
ghost use Rattle.std.specs.Prelude.{◌≡◌, length, position};
ghost use Rattle.std.specs.List.{take_while};
ghost use Rattle.std.specs.Iterator.{YieldsFirstRef, item_count};
ghost use Rattle.request.specs.Words.{FirstWord, is_letter, is_space, words_in};

// What stands first in a text, and the text behind it.
#[derive(Clone, Copy)]
pub struct Cut<'a, T> {
    pub front: T,
    pub rest: &'a [u8],
}

// White space between words: form feed is none.
pub fn is_space(c: u8) -> bool
    ensures { result ≡ is_space c }
{
    c == b' ' || c == b'\t' || c == b'\n' || c == b'\r'
}

// Where the first word begins, if there is a word.
fn word_start(text: &[u8]) -> Option<usize>
    ensures { result ≡ position is_letter text.now }
{
    text.iter().position(|c| !is_space(*c))
}

// Where the first white space stands, if there is any.
fn gap(text: &[u8]) -> Option<usize>
    ensures { result ≡ position is_space text.now }
{
    text.iter().position(|c| is_space(*c))
}

// Where a word that begins the text ends.
fn word_end(text: &[u8]) -> usize
    ensures { result ≡ length (take_while is_letter text.now) }
{
    gap(text).unwrap_or(text.len())
}

// The first word of a text with what stands behind it, if there is a word.
pub fn first_word(text: &[u8]) -> Option<Cut<'_, &[u8]>>
    ensures { FirstWord text.now result }
{
    let from_word = &text[word_start(text)?..];
    let (front, rest) = from_word.split_at(word_end(from_word));
    Some(Cut { front, rest })
}

// The words of a text, one by one.
#[derive(Drop)]
pub struct Words<'a> {
    pub left: &'a [u8],
}

impl<'a> Iterator for Words<'a> {
    type Item = &'a [u8];

    ghost next_gives = { YieldsFirstRef (λ s. words_in s.left.now) };

    ghost remaining = { item_count (λ s. words_in s.left.now) };

    fn next(&mut self) -> Option<&'a [u8]> {
        let Cut { front, rest } = first_word(self.left)?;
        self.left = rest;
        Some(front)
    }
}
