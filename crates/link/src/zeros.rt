// The trimmed form of a message in memory.
ghost use Rattle.std.specs.Prelude.{◌≡◌, ◌+◌, ◌≤◌, ◌++◌, length, take, drop};
ghost use Rattle.link.specs.Trim.{leading, trailing, trimmed, has_form, spread, untrimmed, ReadInto};

use super::pair::is_length;

// How many words stand before the first that is not zero.
fn leading_zeros(words: &[u32]) -> usize
    ensures within { result ≤ length words.now }
    ensures is { result ≡ leading words.now }
{
    words.iter().take_while(|word| **word == 0).count()
}

// How many words stand behind the last that is not zero.
fn trailing_zeros(words: &[u32]) -> usize
    ensures within { result ≤ length words.now }
    ensures is { result ≡ trailing words.now }
{
    words.iter().rev().take_while(|word| **word == 0).count()
}

// Writes the trimmed form of `words` first into `form`, and answers its length.
pub(super) fn write_trimmed(form: &mut [u32], words: &[u32]) -> usize
    requires few { length words.now ≤ 5200 }
    requires room { length words.now + 2 ≤ length form.old }
    ensures within { result ≤ length form.new }
    ensures form { take result form.new ≡ trimmed words.now }
{
    let zeros = leading_zeros(words);
    let end = words.len() - trailing_zeros(words);
    let inner = &words[zeros..end.max(zeros)];
    form[0] = words.len() as u32;
    form[1] = zeros as u32;
    form[2..2 + inner.len()].copy_from_slice(inner);
    2 + inner.len()
}

// Whether these are the parts of the trimmed form of a message of at most `longest` words.
fn has_form(longest: u32, count: u32, zeros: u32, inner: &[u32]) -> bool
    ensures { result ≡ has_form longest count zeros inner.now }
{
    let fits = is_length(longest, count as usize) && zeros as usize + inner.len() <= count as usize;
    match (inner.first(), inner.last()) {
        (Some(first), Some(last)) => fits && *first != 0 && *last != 0,
        _ => fits && zeros == count,
    }
}

// Writes a message of `count` words first into `area`: zeros, the words of `inner`, and zeros.
fn write_spread(area: &mut [u32], count: usize, zeros: usize, inner: &[u32])
    requires fits { zeros + length inner.now ≤ count }
    requires room { count ≤ length area.old }
    ensures { area.new ≡ spread count zeros inner.now ++ drop count area.old }
{
    let end = zeros + inner.len();
    area[..zeros].fill(0);
    area[zeros..end].copy_from_slice(inner);
    area[end..count].fill(0);
}

// Writes the message that `form` stands for first into `area` and answers its length; none where it is no trimmed form.
pub(super) fn read_trimmed(form: &[u32], longest: u32, area: &mut [u32]) -> Option<usize>
    requires { longest ≤ length area.old }
    ensures { ReadInto (untrimmed longest form.now) area.old area.new result }
{
    let [count, zeros, inner @ ..] = form else {
        return None;
    };
    if !has_form(longest, *count, *zeros, inner) {
        return None;
    }
    write_spread(area, *count as usize, *zeros as usize, inner);
    Some(*count as usize)
}
