//! What is done, and what is answered.
use block_rules::Verdict;
use uo_base::Event;

/// One act of one of the nodes of a [`World`](crate::World): a message that it handles.
#[derive(Clone, Copy)]
pub enum Act<'a> {
    /// The bridge handles an event of its feed, by `Bridge::step`; a message beside a block is not looked at.
    Bridge(Event<'a>),
    /// A follower asks for what comes next. The ask is stored with the serials of the follower's levels, at most 101, and numbered from 0 on.
    Ask {
        /// The number of the follower, from 0 on.
        follower: u32,
    },
    /// The bridge answers an ask, also one of long ago. The reply is stored, and numbered from 0 on.
    Serve {
        /// The number of the ask.
        ask: u64,
    },
    /// A follower gets a reply, also one to another follower, of long ago, or once more.
    Deliver {
        /// The number of the follower, from 0 on.
        follower: u32,
        /// The number of the reply.
        reply: u64,
    },
}

/// What a reply says. It goes by the least index at which a serial of the ask, the newest first, is 0 or on the bridge's chain.
#[derive(Clone, Copy, Debug, PartialEq, Eq)]
pub enum Kind {
    /// The newest serial is on the chain, and behind it comes the block with this one.
    Next {
        /// The serial of the block, from 1 on.
        serial: u64,
    },
    /// The newest serial is that of the chain's newest block.
    Same,
    /// The newest blocks are off the chain: so many levels back is one that is on it.
    Back {
        /// How many, at least 1 and at most 100.
        count: u32,
    },
    /// None of the serials is on the chain. In a world that acts made this never comes: the oldest level of a follower is never above the oldest one
    /// that the bridge can go back to, and that one stays on the bridge's chain.
    Lost,
}

/// What an act comes to.
#[derive(Clone, Copy, PartialEq, Eq)]
pub enum Outcome {
    /// The verdict of the bridge.
    Judged(Verdict),
    /// An ask was stored.
    Asked {
        /// Its number.
        ask: u64,
    },
    /// A reply was stored.
    Replied {
        /// Its number.
        reply: u64,
        /// What it says.
        kind: Kind,
    },
    /// The reply went to the follower's node, which took it.
    Moved {
        /// The newest serial of the follower then; 0 where it has no block.
        serial: u64,
    },
    /// The reply does not apply. `Next` and `Back` apply where the follower's newest serial is that of the one who asked, and `Back` only where the
    /// follower can go back by so many levels; `Same` and `Lost` never do.
    Stale,
    /// There is no such follower, ask or reply.
    Unknown,
}
