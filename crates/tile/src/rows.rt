// Rows of pixels of any kind.
ghost use Rattle.std.specs.Prelude.{◌≡◌, length, is_some};
ghost use Rattle.tile.specs.Rows.{AreRow, JoinedBehind, JoinedRows, row_of_words, row_words};
ghost use Rattle.tile.specs.Words.{Written};

use crate::fault::{Fault, Ground, unranked};
use crate::kind::Pixel;

// Puts the words of the row's pixels first in `out`; refused where `out` is too short.
pub fn write_row<P: Pixel>(row: &[P::Record], out: &mut [u32]) -> Result<(), Fault>
    ensures { Written (row_words P.Pixel.model row.now) out.old out.new result }
{
    let width = P::width();
    if out.len() / width < row.len() {
        return Err(unranked(Ground::TooShort));
    }
    // Stays: the place in `out` is counted, since after a walk by `chunks_exact_mut` a proof knows its length alone.
    for (i, record) in row.iter().enumerate() {
        P::from_record(*record).write(&mut out[i * width..])?;
    }
    Ok(())
}

// Whether the words are those of some pixels, one after another.
fn lawful_words<P: Pixel>(words: &[u32]) -> bool
    ensures { AreRow P.Pixel.model words.now result }
{
    let width = P::width();
    words.len() % width == 0
        && words
            .chunks_exact(width)
            .all(|pixel| P::read(pixel).is_some())
}

// Whether the words are those of so many pixels.
pub fn is_row<P: Pixel>(words: &[u32], pixels: usize) -> bool
    ensures { result ≡ is_some (row_of_words P.Pixel.model pixels words.now) }
{
    words.len() / P::width() == pixels && lawful_words::<P>(words)
}

// Joins each pixel of `front` with that of `back`; refused where the rows are not equally long.
pub fn join_rows<P: Pixel>(front: &mut [P::Record], back: &[P::Record]) -> Result<(), Fault>
    ensures { JoinedRows P.Pixel.model front.old back.now front.new result }
{
    if front.len() != back.len() {
        return Err(unranked(Ground::TooShort));
    }
    // Stays: `front` is written by index, since after a `zip` of its `iter_mut` a proof knows its length alone.
    for (i, record) in back.iter().enumerate() {
        let over = P::from_record(front[i]);
        let under = P::from_record(*record);
        front[i] = over.join(under).to_record();
    }
    Ok(())
}

// Joins each pixel of `front` with the pixel whose words stand at its place; refused where the words are not those of so many pixels.
pub fn join_words<P: Pixel>(front: &mut [P::Record], words: &[u32]) -> Result<(), Fault>
    ensures { JoinedBehind P.Pixel.model front.old (row_of_words P.Pixel.model (length front.old) words.now) front.new result }
{
    if !is_row::<P>(words, front.len()) {
        return Err(unranked(Ground::BadMessage));
    }
    // Stays: `front` is written by index, since after a `zip` of its `iter_mut` a proof knows its length alone.
    for (i, pixel) in words.chunks_exact(P::width()).enumerate() {
        if let Some(under) = P::read(pixel) {
            let over = &mut front[i];
            *over = P::from_record(*over).join(under).to_record();
        }
    }
    Ok(())
}
