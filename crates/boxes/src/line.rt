// The link that keeps its waiting messages one behind the other.
ghost use Rattle.std.specs.Prelude.{◌≤◌, length, take};
ghost use Rattle.boxes.specs.Lines.{line_words, Spelt, Good};
ghost use Rattle.tile.specs.Words.{AreWords};

use super::sizes::Sizes;

// The first `used` words hold the waiting messages in order of sending, each behind the number of its box and its length.
// Stays: the number of used words beside the words, since the words are lent and a link has no heap.
#[derive(Drop)]
pub struct LineLink<'a> {
    pub(super) sizes: Sizes,
    pub(super) used: usize,
    pub(super) words: &'a mut [u32],
    ghost few: { sizes.ranks ≤ 32 },
    ghost short: { sizes.longest ≤ 5200 },
    ghost room: { line_words sizes.ranks sizes.longest ≤ length words.now },
    ghost within: { used ≤ length words.now },
    ghost spelt: { Spelt (take used words.now) },
    ghost good: { Good sizes.ranks sizes.longest (take used words.now) },
    ghost fits: { AreWords (take used words.now) },
}
