// What a kind of pixel is.
ghost use Rattle.std.specs.Prelude.{◌≡◌, ℕ};
ghost use Rattle.tile.specs.Kinds.{Kind, KindLaws};
ghost use Rattle.tile.specs.Words.{Written};

use crate::fault::Fault;

pub trait Pixel: Copy {
    // A pixel as it lies in memory: every record stands for one pixel.
    type Record: Copy;

    // The kind's number.
    // Stays: the trait is open, and an enum of the kinds that have names would ask more of a kind of its own.
    const KIND: u8;

    // How many words a pixel has.
    const WORDS: usize;

    ghost KIND: { ℕ };

    ghost WORDS: { ℕ };

    ghost model: { Kind Self Self.Record };

    // The pixel that covers nothing.
    fn blank() -> Self
        ensures { result ≡ model.blank };

    // This pixel in front of `back`.
    fn join(self, back: Self) -> Self
        ensures { result ≡ model.join self back };

    // The pixel that a record stands for.
    // Stays: From as a supertrait would ask more of a kind of its own, as of one whose records are another kind's.
    fn from_record(plain: Self::Record) -> Self
        ensures { result ≡ model.meaning plain };

    // A record that stands for the pixel.
    fn to_record(self) -> Self::Record
        ensures { result ≡ model.plain self };

    // Puts the pixel's words first in `out`; refused where `out` is too short.
    fn write(self, out: &mut [u32]) -> Result<(), Fault>
        ensures { Written (model.words self) out.old out.new result };

    // The pixel whose words these are, if one has these words.
    // Stays: TryFrom<&[u32]> as a supertrait needs a bound under for<'a>, which gets no proof.
    fn read(words: &[u32]) -> Option<Self>
        ensures { result ≡ model.reads words.now };

    // The kind's number, as its rules have it.
    final fn number() -> u8
        ensures { result ≡ model.number }
    {
        Self::KIND
    }

    // How many words a pixel has, as the kind's rules have it.
    final fn width() -> usize
        ensures { result ≡ model.width }
    {
        Self::WORDS
    }

    // The constants are those of the kind's rules.
    ghost same_number: { KIND ≡ model.number };

    ghost same_width: { WORDS ≡ model.width };

    ghost lawful: { KindLaws model };
}
