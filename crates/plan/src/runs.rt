// Runs of neighbours.
ghost use Rattle.std.specs.Prelude.{◌≡◌, ◌+◌, ◌<◌, ◌≤◌};
ghost use Rattle.plan.specs.Radix.{part};

// A run of ranks or of pixels: `len` of them, from `start` on.
#[derive(Clone, Copy, PartialEq, Eq, Debug)]
pub struct Run {
    pub start: u32,
    pub len: u32,
}

impl Run {
    // Where the run ends: just behind its last number.
    pub(crate) fn end(self) -> u64
        ensures { result ≡ self.start + self.len }
    {
        u64::from(self.start) + u64::from(self.len)
    }

    // Part `place` of `parts` of nearly equal length.
    pub(crate) fn part(self, parts: u32, place: u32) -> Run
        requires { (place < parts) × (parts ≤ 32) × (self.start + self.len ≤ 1024) }
        ensures { result ≡ part self parts place }
    {
        let from = place * self.len / parts;
        let to = (place + 1) * self.len / parts;
        Run {
            start: self.start + from,
            len: to - from,
        }
    }
}
