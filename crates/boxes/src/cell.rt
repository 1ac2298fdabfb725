// The link that keeps each box in words of its own.
ghost use Rattle.std.specs.Prelude.{◌≤◌, length};
ghost use Rattle.boxes.specs.Cells.{cell_words};
ghost use Rattle.boxes.specs.Sizes.{WordsBelow};

use super::sizes::Sizes;

// The box of a pair starts at word (from * ranks + to) * (longest + 1): its length, 0 where it is empty, and its message.
// Stays: the length 0 for an empty box, since lent words of a fixed number must say it.
#[derive(Drop)]
pub struct CellLink<'a> {
    pub(super) sizes: Sizes,
    pub(super) words: &'a mut [u32],
    ghost few: { sizes.ranks ≤ 32 },
    ghost short: { sizes.longest ≤ 5200 },
    ghost room: { cell_words sizes.ranks sizes.longest ≤ length words.now },
    ghost fits: { WordsBelow (cell_words sizes.ranks sizes.longest) words.now },
}
