// Why a call is refused.
ghost use Rattle.std.specs.Prelude.{◌≡◌};
ghost use Rattle.tile.specs.Faults.{number_of, ground_of, fault_number, fault_part, fault_rank, fault_place, at_rank, unranked};

// The rank of a fault that concerns none.
// Stays: `rank` promises a number, and a call may be given this very rank, so an `Option` would stand beside the number and not in its place.
pub const NO_RANK: u32 = 4_294_967_295;

// The ground of a refusal, in the order in which grounds are tried.
#[derive(Clone, Copy, Debug, PartialEq, Eq)]
pub enum Ground {
    UnknownRecord = 1,
    CutShort = 2,
    OutOfPlace = 3,
    WrongRank = 4,
    OffLimits = 5,
    WrongKind = 6,
    UnlawfulPixel = 7,
    Outside = 8,
    TooShort = 9,
    Unsuited = 10,
    WrongLength = 11,
    BoxTaken = 12,
    BoxEmpty = 13,
    Spoilt = 14,
    NoDelivery = 15,
    NotClosed = 16,
    Finished = 17,
    Unfinished = 18,
    BoxesInUse = 19,
    BadMessage = 20,
}

// A refusal: its ground, and what it concerns.
// Stays: a struct of the ground and an enum of the rest makes two values to build and match for each refusal, so it is no plainer.
#[derive(Clone, Copy, Debug, PartialEq, Eq)]
pub enum Fault {
    // The dump reader refuses the record at `place`.
    Dump {
        ground: Ground,
        rank: u32,
        place: usize,
    },
    // A plan maker refuses its request.
    Plan {
        ground: Ground,
    },
    // A link refuses a call.
    Link {
        ground: Ground,
        rank: u32,
    },
    // Any other call is refused.
    Call {
        ground: Ground,
        rank: u32,
    },
}

impl Ground {
    // The number that documents and logs give the ground.
    pub fn number(self) -> u8
        ensures { result ≡ number_of self }
    {
        self as u8
    }
}

impl Fault {
    // The ground on which the call is refused.
    pub fn ground(self) -> Ground
        ensures { result ≡ ground_of self }
    {
        match self {
            Fault::Dump { ground, .. } => ground,
            Fault::Plan { ground } => ground,
            Fault::Link { ground, .. } => ground,
            Fault::Call { ground, .. } => ground,
        }
    }

    // The number of its ground.
    pub fn number(self) -> u8
        ensures { result ≡ fault_number self }
    {
        self.ground().number()
    }

    // The part that refuses: 1 the dump reader, 2 any other call, 3 a plan maker, 4 a link.
    // Stays: the variants are the enum of the parts, and this is the number that documents and logs give each.
    pub fn part(self) -> u8
        ensures { result ≡ fault_part self }
    {
        match self {
            Fault::Dump { .. } => 1,
            Fault::Plan { .. } => 3,
            Fault::Link { .. } => 4,
            Fault::Call { .. } => 2,
        }
    }

    // The rank that the refusal concerns.
    pub fn rank(self) -> u32
        ensures { result ≡ fault_rank self }
    {
        match self {
            Fault::Dump { rank, .. } | Fault::Link { rank, .. } | Fault::Call { rank, .. } => rank,
            Fault::Plan { .. } => NO_RANK,
        }
    }

    // The offset of the record in a dump.
    pub fn place(self) -> usize
        ensures { result ≡ fault_place self }
    {
        match self {
            Fault::Dump { place, .. } => place,
            _ => 0,
        }
    }

    // The same fault at another rank.
    pub fn at_rank(self, rank: u32) -> Fault
        ensures { result ≡ at_rank rank self }
    {
        match self {
            Fault::Dump { ground, place, .. } => Fault::Dump {
                ground,
                rank,
                place,
            },
            Fault::Plan { ground } => Fault::Plan { ground },
            Fault::Link { ground, .. } => Fault::Link { ground, rank },
            Fault::Call { ground, .. } => Fault::Call { ground, rank },
        }
    }
}

// A refusal that concerns no rank.
pub fn unranked(cause: Ground) -> Fault
    ensures { result ≡ unranked cause }
{
    Fault::Call {
        ground: cause,
        rank: NO_RANK,
    }
}
