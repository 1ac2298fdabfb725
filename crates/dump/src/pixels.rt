// The pixels of a dump, one by one, without memory of their own.
ghost use Rattle.std.specs.Prelude.{◌≡◌};
ghost use Rattle.std.specs.Iterator.{item_count};
ghost use Rattle.dump.specs.Pixels.{Given, left, pixels_in};

use crate::walk::Walk;

// A pixel of a dump: its rank, its number, and the bytes of its words.
#[derive(Clone, Copy)]
pub struct PixelAt<'a> {
    pub rank: u32,
    pub number: u32,
    pub body: &'a [u8],
}

// The pixels that are still to be handed out.
#[derive(Drop)]
pub struct Pixels<'a> {
    walk: Walk<'a>,
}

impl<'a> Pixels<'a> {
    // All pixels of the sound records at the front of the bytes.
    pub fn new(bytes: &'a [u8]) -> Pixels<'a>
        ensures { left result ≡ pixels_in bytes.now }
    {
        Pixels {
            walk: Walk::new(bytes),
        }
    }
}

impl<'a> Iterator for Pixels<'a> {
    type Item = PixelAt<'a>;

    ghost next_gives = { λ s r t. Given (left s) r (left t) };

    ghost remaining = { item_count left };

    fn next(&mut self) -> Option<PixelAt<'a>> {
        while let Ok(placed) = self.walk.step() {
            if let Some(pixel) = placed {
                return Some(pixel);
            }
        }
        None
    }
}
