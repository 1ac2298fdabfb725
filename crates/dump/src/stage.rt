// How far a dump has been read.
use tile::named::PixelKind;

// What HEAD tells: the ranks, the pixels of each, and their kind.
#[derive(Clone, Copy)]
pub struct Head {
    pub ranks: u32,
    pub pixels: u32,
    pub kind: PixelKind,
}

// Within the sections: how many have begun, and the number of the pixel due next.
#[derive(Clone, Copy)]
pub struct Progress {
    pub head: Head,
    pub sections: u32,
    pub due: u32,
}

// Before HEAD, between HEAD and END, or behind END.
// Stays: clauses say `phase stage`, since a model of the type would hide from them the cases that `within` tells apart.
#[derive(Clone, Copy)]
pub enum Stage {
    Start,
    Within(Progress),
    Ended(Head),
}
