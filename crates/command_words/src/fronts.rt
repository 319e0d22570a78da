//! The words in front of the options: a command, and the words of its own.
ghost use Rattle.std.specs.Prelude.{◌≡◌, ◌≤◌, map, length};
ghost use Rattle.std.specs.String.{string_bytes};
ghost use Rattle.command_words.specs.Words.{parted_as, blocks_for, gen_for, upgrade_for, one_word_for, order_at, ticket_at, relay_at, command_of};
ghost use Rattle.command_words.specs.Words.{front_of, rule_of, options_of, options_at, task_of};

use crate::hashes::is_hash_word;
use crate::numbers::{number_in, positive_in};
use crate::options::{FromRule, OptionName};
use crate::words::WordFault;

const FOLLOW: [OptionName; 5] = [
    OptionName::Net,
    OptionName::Feed,
    OptionName::From,
    OptionName::To,
    OptionName::Watch,
];

const PROVE: [OptionName; 4] = [
    OptionName::Net,
    OptionName::Feed,
    OptionName::To,
    OptionName::Watch,
];

const AUDIT: [OptionName; 3] = [OptionName::Net, OptionName::Feed, OptionName::Watch];

const GEN: [OptionName; 2] = [OptionName::Net, OptionName::To];

const UPGRADE_FEED: [OptionName; 4] = [
    OptionName::Net,
    OptionName::Feed,
    OptionName::To,
    OptionName::Watch,
];

const UPGRADE_STATE: [OptionName; 2] = [OptionName::From, OptionName::To];

const ORDER: [OptionName; 3] = [OptionName::Net, OptionName::Feed, OptionName::To];

const TICKET: [OptionName; 2] = [OptionName::From, OptionName::To];

const CHECK: [OptionName; 2] = [OptionName::Feed, OptionName::From];

const RECHECK: [OptionName; 4] = [
    OptionName::Net,
    OptionName::Feed,
    OptionName::From,
    OptionName::Watch,
];

const RELAY: [OptionName; 4] = [
    OptionName::Net,
    OptionName::Feed,
    OptionName::From,
    OptionName::Watch,
];

/// The most blocks that a generated feed has.
const MOST_BLOCKS: u64 = 100_000;

/// The most followers that a relay has.
const MOST_FOLLOWERS: u64 = 100;

/// A command, with the words of its own.
#[derive(Clone, Copy)]
pub enum Front<'a> {
    Follow,
    Prove,
    Audit,
    Gen { number: u64, blocks: u32 },
    UpgradeFeed,
    UpgradeState,
    Order { tip: &'a str },
    Ticket { number: u64 },
    Check,
    Recheck,
    Relay { followers: u32 },
}

impl Front<'_> {
    /// How many words it has.
    pub fn count(&self) -> u64
        ensures is { result ≡ length (front_of (task_of self.now)) }
        ensures few { result ≤ 3 }
    {
        match self {
            Front::Gen { .. } => 3,
            Front::UpgradeFeed
            | Front::UpgradeState
            | Front::Order { .. }
            | Front::Ticket { .. }
            | Front::Relay { .. } => 2,
            Front::Follow | Front::Prove | Front::Audit | Front::Check | Front::Recheck => 1,
        }
    }

    /// What `--from` leaves of the other options.
    pub fn rule(&self) -> FromRule
        ensures { result ≡ rule_of (task_of self.now) }
    {
        match self {
            Front::Follow => FromRule::Alone,
            _ => FromRule::Beside,
        }
    }

    /// The options that the command has.
    pub fn options(&self) -> &'static [OptionName]
        ensures { result.now ≡ options_of (task_of self.now) }
    {
        match self {
            Front::Follow => &FOLLOW,
            Front::Prove => &PROVE,
            Front::Audit => &AUDIT,
            Front::Gen { .. } => &GEN,
            Front::UpgradeFeed => &UPGRADE_FEED,
            Front::UpgradeState => &UPGRADE_STATE,
            Front::Order { .. } => &ORDER,
            Front::Ticket { .. } => &TICKET,
            Front::Check => &CHECK,
            Front::Recheck => &RECHECK,
            Front::Relay { .. } => &RELAY,
        }
    }
}

/// Words that begin with a command and the words of its own.
pub struct Parted<'a> {
    pub front: Front<'a>,
    /// What stands behind it.
    pub rest: &'a [String],
}

/// Takes the command and the words of its own from the front.
#[tactic(auto, unfolding(crate::specs::Words::command_of))]
pub fn front_in(words: &[String]) -> Result<Parted<'_>, WordFault>
    ensures { parted_as result ≡ command_of (map string_bytes words.now) }
{
    let [name, rest @ ..] = words else {
        return Err(WordFault { at: 0 });
    };
    match name.as_str() {
        "follow" => split(Front::Follow, rest),
        "prove" => split(Front::Prove, rest),
        "audit" => split(Front::Audit, rest),
        "gen" => behind_gen(rest),
        "upgrade" => behind_upgrade(rest),
        "order" => behind_order(rest),
        "ticket" => behind_ticket(rest),
        "check" => split(Front::Check, rest),
        "recheck" => split(Front::Recheck, rest),
        "relay" => behind_relay(rest),
        _ => Err(WordFault { at: 0 }),
    }
}

// This front, and these words behind it.
fn split<'a>(front: Front<'a>, rest: &'a [String]) -> Result<Parted<'a>, WordFault>
    ensures { parted_as result ≡ options_at (task_of front.entry) (map string_bytes rest.now) }
{
    Ok(Parted { front, rest })
}

// The words behind `gen`.
#[tactic(auto, unfolding(crate::specs::Words::gen_for))]
fn behind_gen(words: &[String]) -> Result<Parted<'_>, WordFault>
    ensures { parted_as result ≡ gen_for (map string_bytes words.now) }
{
    let [number, rest @ ..] = words else {
        return Err(WordFault { at: 1 });
    };
    let Some(number) = number_in(u64::MAX, number.as_str()) else {
        return Err(WordFault { at: 1 });
    };
    behind_number(number, rest)
}

// The words behind `gen` and its number.
#[tactic(auto, unfolding(crate::specs::Words::blocks_for))]
fn behind_number(number: u64, words: &[String]) -> Result<Parted<'_>, WordFault>
    ensures { parted_as result ≡ blocks_for number (map string_bytes words.now) }
{
    let [blocks, rest @ ..] = words else {
        return Err(WordFault { at: 2 });
    };
    let Some(blocks) = number_in(MOST_BLOCKS, blocks.as_str()) else {
        return Err(WordFault { at: 2 });
    };
    let front = Front::Gen {
        number,
        blocks: blocks as u32,
    };
    split(front, rest)
}

// The words behind `upgrade`.
#[tactic(auto, unfolding(crate::specs::Words::upgrade_for))]
fn behind_upgrade(words: &[String]) -> Result<Parted<'_>, WordFault>
    ensures { parted_as result ≡ upgrade_for (map string_bytes words.now) }
{
    let [name, rest @ ..] = words else {
        return Err(WordFault { at: 1 });
    };
    match name.as_str() {
        "feed" => split(Front::UpgradeFeed, rest),
        "state" => split(Front::UpgradeState, rest),
        _ => Err(WordFault { at: 1 }),
    }
}

// The words behind `order`.
#[tactic(auto, unfolding(crate::specs::Words::one_word_for))]
fn behind_order(words: &[String]) -> Result<Parted<'_>, WordFault>
    ensures { parted_as result ≡ one_word_for order_at (map string_bytes words.now) }
{
    let [tip, rest @ ..] = words else {
        return Err(WordFault { at: 1 });
    };
    if !is_hash_word(tip.as_bytes()) {
        return Err(WordFault { at: 1 });
    }
    split(Front::Order { tip: tip.as_str() }, rest)
}

// The words behind `ticket`.
#[tactic(auto, unfolding(crate::specs::Words::one_word_for))]
fn behind_ticket(words: &[String]) -> Result<Parted<'_>, WordFault>
    ensures { parted_as result ≡ one_word_for ticket_at (map string_bytes words.now) }
{
    let [number, rest @ ..] = words else {
        return Err(WordFault { at: 1 });
    };
    let Some(number) = number_in(u64::MAX, number.as_str()) else {
        return Err(WordFault { at: 1 });
    };
    split(Front::Ticket { number }, rest)
}

// The words behind `relay`.
#[tactic(auto, unfolding(crate::specs::Words::one_word_for))]
fn behind_relay(words: &[String]) -> Result<Parted<'_>, WordFault>
    ensures { parted_as result ≡ one_word_for relay_at (map string_bytes words.now) }
{
    let [followers, rest @ ..] = words else {
        return Err(WordFault { at: 1 });
    };
    let Some(followers) = positive_in(MOST_FOLLOWERS, followers.as_str()) else {
        return Err(WordFault { at: 1 });
    };
    let front = Front::Relay {
        followers: followers as u32,
    };
    split(front, rest)
}
