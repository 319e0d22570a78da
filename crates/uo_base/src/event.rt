//! What a feed is made of, and the bounds of a run.
ghost use Rattle.std.specs.Prelude.{◌≡◌, ◌-◌, ◌^◌};

/// The network whose blocks a feed holds. It fixes the magic of a block's frame and how often the subsidy halves.
#[derive(Clone, Copy, Debug, PartialEq, Eq)]
pub enum Net {
    Main,
    Regtest,
}

/// How much a run may take.
#[derive(Clone, Copy, Debug, PartialEq, Eq)]
pub struct Limits {
    /// The most entries that are ever added, at most 2^40 - 1.
    pub leaves: u64,
    /// The most bytes of each input (feed, prior state, watch list), at most 2^48.
    pub bytes: u64,
}

impl Limits {
    /// The limits of the program.
    pub fn standard() -> Self
        ensures leaves { result.leaves ≡ 2 ^ 40 - 1 }
        ensures bytes { result.bytes ≡ 2 ^ 48 }
    {
        Limits {
            leaves: 1_099_511_627_775,
            bytes: 281_474_976_710_656,
        }
    }
}

/// One step of a feed: what one node handles at once.
#[derive(Clone, Copy, Debug, PartialEq, Eq)]
pub enum Event<'a> {
    /// A block's bytes, and the proof message that stood right before it.
    Block {
        block: &'a [u8],
        message: Option<&'a [u8]>,
    },
    /// The chain goes back by this many blocks.
    Rollback {
        count: u32,
    },
    /// A proof that no block follows.
    Stray,
}
