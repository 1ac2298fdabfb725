// The sizes of a link over lent words.
ghost use Rattle.std.specs.Prelude.{◌≡◌, ◌≤◌, true, false, MatchOption};
ghost use Rattle.boxes.specs.Cells.{cell_words};
ghost use Rattle.boxes.specs.Lines.{line_words};
ghost use Rattle.boxes.specs.Sizes.{in_limits};

// How many ranks there are, and how many words the longest message has.
// Stays: the limits are ghost fields of both links, since a layer over a link that holds a struct with them has no proof.
#[derive(Clone, Copy, Default)]
pub struct Sizes {
    pub(super) ranks: u32,
    pub(super) longest: u32,
}

impl Sizes {
    // The sizes, where they are within their limits.
    pub(super) fn new(ranks: u32, longest: u32) -> Option<Sizes>
        ensures { MatchOption result (in_limits ranks longest ≡ false) (λ sizes. (in_limits ranks longest ≡ true) × (sizes.ranks ≡ ranks) × (sizes.longest ≡ longest)) }
    {
        if (1..=32).contains(&ranks) && (1..=5200).contains(&longest) {
            Some(Sizes { ranks, longest })
        } else {
            None
        }
    }

    // How many words a cell link of these sizes needs.
    pub(super) fn cell_words(self) -> usize
        requires few { self.ranks ≤ 32 }
        requires short { self.longest ≤ 5200 }
        ensures { result ≡ cell_words self.ranks self.longest }
    {
        self.ranks as usize * self.ranks as usize * (self.longest as usize + 1)
    }

    // How many words a line link of these sizes needs.
    pub(super) fn line_words(self) -> usize
        requires few { self.ranks ≤ 32 }
        requires short { self.longest ≤ 5200 }
        ensures { result ≡ line_words self.ranks self.longest }
    {
        let others = (self.ranks as usize).saturating_sub(1);
        self.ranks as usize * others * (self.longest as usize + 2)
    }
}
