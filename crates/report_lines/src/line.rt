//! The lines of the report.
ghost use Rattle.std.specs.Prelude.{Some};

use crate::hash_text::{HashText, PlainText};
use crate::verdict::{ProofText, VerdictText};
use crate::words::{put_one, put_three, put_two};
use block_rules::{ProofRefusal, Verdict};
use std::fmt;
use uo_digest::Digest;

/// Why a ticket is not accepted.
#[derive(Clone, Copy)]
pub enum CheckFault {
    /// The text is no ticket.
    Form,
    /// The text is a ticket of this version.
    Version(u8),
    /// The ticket is of another block than the newest one.
    Tip,
    /// The ticket's proof is refused.
    Proof(ProofRefusal),
}

impl fmt::Display for CheckFault {
    ghost use Rattle.report_lines.specs.Lines.{check_fault_text};

    ghost output = { λ why. Some (check_fault_text why) };

    fn fmt<W: fmt::Write>(&self, f: &mut fmt::Formatter<W>) -> fmt::Result {
        match self {
            CheckFault::Form => f.write_str("form"),
            CheckFault::Version(version) => put_one(f, "version ", version),
            CheckFault::Tip => f.write_str("tip"),
            CheckFault::Proof(why) => write!(f, "{}", ProofText(why)),
        }
    }
}

/// What a bridge replies to a follower.
#[derive(Clone, Copy)]
pub enum ReplyKind {
    /// The block behind the follower's newest one.
    Next,
    /// The follower has the newest block.
    Same,
    /// So many blocks are to be taken back.
    Back(u32),
    /// None of the follower's levels is on the bridge's chain. The program never says it: the oldest one always is.
    Lost,
}

impl fmt::Display for ReplyKind {
    ghost use Rattle.report_lines.specs.Lines.{reply_text};

    ghost output = { λ kind. Some (reply_text kind) };

    fn fmt<W: fmt::Write>(&self, f: &mut fmt::Formatter<W>) -> fmt::Result {
        match self {
            ReplyKind::Next => f.write_str("next"),
            ReplyKind::Same => f.write_str("same"),
            ReplyKind::Back(count) => put_one(f, "back ", count),
            ReplyKind::Lost => f.write_str("lost"),
        }
    }
}

/// Height and hash of the newest block, if there is one.
#[derive(Clone, Copy)]
struct TipText<'a>(&'a Option<(u32, Digest)>);

impl fmt::Display for TipText<'_> {
    ghost use Rattle.report_lines.specs.Lines.{tip_text};

    ghost output = { λ tip. Some (tip_text tip.0.now) };

    fn fmt<W: fmt::Write>(&self, f: &mut fmt::Formatter<W>) -> fmt::Result {
        match self.0 {
            Some((height, hash)) => write!(f, "{height} {}", HashText(hash)),
            None => f.write_str("- -"),
        }
    }
}

/// A line of the report, without the byte that ends it.
#[derive(Clone, Copy)]
pub enum Line {
    /// What the node says of an event.
    Verdict(Verdict),
    /// The end of a feed: its events, the height and hash of the newest block, the entries ever added.
    End {
        events: u64,
        tip: Option<(u32, Digest)>,
        leaves: u64,
    },
    /// The words are not accepted, from this index on.
    Words(u64),
    /// No frame begins with these four bytes at this offset.
    FrameMagic {
        offset: u64,
        found: [u8; 4],
    },
    /// The feed ends within the frame at this offset, which lacks so many bytes.
    FrameCut {
        offset: u64,
        missing: u64,
    },
    /// The block or proof at this offset has more bytes than one may have.
    FrameLong {
        offset: u64,
        length: u32,
    },
    /// The rollback at this offset has not four bytes.
    FrameRollback {
        offset: u64,
        length: u32,
    },
    /// The feed has more than this many bytes.
    LimitFeed(u64),
    /// The prior text is no state.
    PriorForm,
    /// The prior text is a state of this version.
    PriorVersion(u8),
    /// The watch list has a bad line of this number, from 1 on.
    Watch(u32),
    /// The prior text has more than this many bytes.
    LimitPrior(u64),
    /// The watch list has more than this many bytes.
    LimitWatch(u64),
    /// The sum of all live outputs and of all subsidies so far, in satoshi.
    Supply {
        live: u64,
        issued: u64,
    },
    /// A proof is forged, behind so many events.
    Clash(u64),
    /// A feed was generated: its frames of blocks, its frames of rollbacks, its bytes.
    Generated {
        blocks: u32,
        rollbacks: u32,
        bytes: u64,
    },
    /// A feed was written anew: its events, and the messages of version 1 beside its blocks.
    UpgradedFeed {
        events: u64,
        messages: u64,
    },
    /// A state was written anew, with so many levels.
    UpgradedState(u32),
    /// A path was stored: its blocks, and how many block frames of the feed are not on it.
    Ordered {
        blocks: u64,
        passed: u64,
    },
    /// No block of the feed has the hash of the tip.
    NoTip,
    /// On the way back from the tip this hash is named, and no block of the feed has it.
    Missing(Digest),
    /// On the way back from the tip the block of this hash is met for the second time.
    Loop(Digest),
    /// The ticket of the entry with this number was written, of so many bytes.
    Ticket {
        number: u64,
        bytes: u64,
    },
    /// No kept entry has the number.
    NoTicket,
    /// The output of a ticket is unspent: its outpoint and its amount in satoshi.
    CheckLive {
        txid: Digest,
        index: u32,
        amount: u64,
    },
    /// A ticket is not accepted.
    CheckFails(CheckFault),
    /// A ticket is accepted and false.
    TicketClash,
    /// An ask was stored, with this number.
    Asked(u64),
    /// A reply was stored, with this number.
    Replied {
        reply: u64,
        kind: ReplyKind,
    },
    /// A follower took a reply, and its newest block has this serial now; 0 stands for no block.
    Moved(u64),
    /// A reply does not apply to the follower.
    Stale,
    /// There is no such follower, ask or reply.
    Unknown,
    /// A follower at the end: its number, the serial, height and hash of its newest block, the entries ever added.
    Node {
        follower: u32,
        serial: u64,
        tip: Option<(u32, Digest)>,
        leaves: u64,
    },
    /// The bridge's feed has no further event.
    NoEvent,
    /// The script has a bad line of this number, from 1 on.
    Script(u64),
}

impl fmt::Display for Line {
    ghost use Rattle.report_lines.specs.Lines.{line_text};

    ghost output = { λ line. Some (line_text line) };

    fn fmt<W: fmt::Write>(&self, f: &mut fmt::Formatter<W>) -> fmt::Result {
        match self {
            Line::Verdict(verdict) => write!(f, "{}", VerdictText(verdict)),
            Line::End {
                events,
                tip,
                leaves,
            } => put_three(f, "end ", events, &TipText(tip), leaves),
            Line::Words(at) => put_one(f, "words ", at),
            Line::FrameMagic { offset, found } => {
                put_two(f, "frame magic ", offset, &PlainText(found))
            }
            Line::FrameCut { offset, missing } => put_two(f, "frame cut ", offset, missing),
            Line::FrameLong { offset, length } => put_two(f, "frame long ", offset, length),
            Line::FrameRollback { offset, length } => {
                put_two(f, "frame rollback ", offset, length)
            }
            Line::LimitFeed(bytes) => put_one(f, "limit feed ", bytes),
            Line::PriorForm => f.write_str("prior form"),
            Line::PriorVersion(version) => put_one(f, "prior version ", version),
            Line::Watch(number) => put_one(f, "watch ", number),
            Line::LimitPrior(bytes) => put_one(f, "limit prior ", bytes),
            Line::LimitWatch(bytes) => put_one(f, "limit watch ", bytes),
            Line::Supply { live, issued } => write!(f, "supply {live} issued {issued}"),
            Line::Clash(events) => put_one(f, "clash ", events),
            Line::Generated {
                blocks,
                rollbacks,
                bytes,
            } => put_three(f, "generated ", blocks, rollbacks, bytes),
            Line::UpgradedFeed { events, messages } => put_two(f, "upgraded ", events, messages),
            Line::UpgradedState(levels) => put_one(f, "upgraded state ", levels),
            Line::Ordered { blocks, passed } => put_two(f, "ordered ", blocks, passed),
            Line::NoTip => f.write_str("notip"),
            Line::Missing(hash) => put_one(f, "missing ", &HashText(hash)),
            Line::Loop(hash) => put_one(f, "loop ", &HashText(hash)),
            Line::Ticket { number, bytes } => put_two(f, "ticket ", number, bytes),
            Line::NoTicket => f.write_str("ticket none"),
            Line::CheckLive {
                txid,
                index,
                amount,
            } => put_three(f, "check live ", &HashText(txid), index, amount),
            Line::CheckFails(why) => put_one(f, "check ", why),
            Line::TicketClash => f.write_str("clash ticket"),
            Line::Asked(ask) => put_one(f, "asked ", ask),
            Line::Replied { reply, kind } => put_two(f, "replied ", reply, kind),
            Line::Moved(serial) => put_one(f, "moved ", serial),
            Line::Stale => f.write_str("stale"),
            Line::Unknown => f.write_str("unknown"),
            Line::Node {
                follower,
                serial,
                tip,
                leaves,
            } => write!(f, "node {follower} {serial} {} {leaves}", TipText(tip)),
            Line::NoEvent => f.write_str("bridge none"),
            Line::Script(line) => put_one(f, "script ", line),
        }
    }
}
