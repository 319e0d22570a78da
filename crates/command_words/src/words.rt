//! The words of the command line.
ghost use Rattle.std.specs.Prelude.{◌≡◌, ◌<◌, map, length, All, IfOk, Ok, option_copied};
ghost use Rattle.std.specs.String.{string_bytes};
ghost use Rattle.command_words.specs.Options.{settings_in, settings_read};
ghost use Rattle.command_words.specs.Words.{read_as, Following, Proving, Auditing, Generating, UpgradingFeed, UpgradingState, Ordering, Ticketing};
ghost use Rattle.command_words.specs.Words.{Checking, Rechecking, Relaying, asked_by, read_for, options_at, settings_at, task_of, command_of};
ghost use Rattle.command_words.specs.Words.{reads_feed, task_in};
ghost use Rattle.command_words.specs.Words.{given_in, Means};

use crate::fronts::{Front, Parted, front_in};
use crate::options::{Options, read_options};
use uo_base::Net;

/// What the words ask for.
#[derive(Clone, Copy, PartialEq, Eq)]
pub enum Command<'a> {
    /// Judge a feed.
    Follow {
        /// The network, where it is named; else mainnet.
        net: Option<Net>,
        /// The file of the feed, where it is named; else standard input.
        feed: Option<&'a str>,
        /// The file of the state to go on from, where it is named. Network and watch list are those of the state then.
        from: Option<&'a str>,
        /// The file that takes the state at the end, where it is named.
        to: Option<&'a str>,
        /// The file of the watch list, where it is named; else nothing is watched.
        watch: Option<&'a str>,
    },
    /// Prove a feed's blocks, and write them with their proofs.
    Prove {
        /// The network, mainnet where none is named.
        net: Net,
        /// The file of the feed, where it is named; else standard input.
        feed: Option<&'a str>,
        /// The file that takes the blocks with their proofs, where it is named.
        to: Option<&'a str>,
        /// The file of the watch list for which proofs are lean, where it is named.
        watch: Option<&'a str>,
    },
    /// Judge a feed by all outputs and the proofs beside its blocks, up to the first forged one.
    Audit {
        /// The network, mainnet where none is named.
        net: Net,
        /// The file of the feed, where it is named; else standard input.
        feed: Option<&'a str>,
        /// The file of the watch list by which lean proofs are read, where it is named.
        watch: Option<&'a str>,
    },
    /// Generate a feed.
    Gen {
        /// The network, mainnet where none is named.
        net: Net,
        /// The number that all draws begin with.
        number: u64,
        /// How many blocks are made, at most 100,000.
        blocks: u32,
        /// The file that takes the feed, where it is named.
        to: Option<&'a str>,
    },
    /// Write a feed anew, with its messages in the version that is written now.
    UpgradeFeed {
        /// The network, mainnet where none is named.
        net: Net,
        /// The file of the feed, where it is named; else standard input.
        feed: Option<&'a str>,
        /// The file that takes the feed that is written, where it is named.
        to: Option<&'a str>,
        /// The file of the watch list by which lean proofs are read, where it is named.
        watch: Option<&'a str>,
    },
    /// Write a state anew, in the version that is written now.
    UpgradeState {
        /// The file of the state.
        from: &'a str,
        /// The file that takes the state that is written, where it is named.
        to: Option<&'a str>,
    },
    /// Put the blocks of a feed in order, up to one of them.
    Order {
        /// The network, mainnet where none is named.
        net: Net,
        /// The hash of the last block, as it is printed: 64 hexadecimal digits in lower case.
        tip: &'a str,
        /// The file of the feed, where it is named; else standard input.
        feed: Option<&'a str>,
        /// The file that takes the blocks in order, where it is named.
        to: Option<&'a str>,
    },
    /// Write the ticket of a watched output, which shows a third party that it is unspent.
    Ticket {
        /// The number of the output's entry.
        number: u64,
        /// The file of the state that has the output.
        from: &'a str,
        /// The file that takes the ticket, where it is named.
        to: Option<&'a str>,
    },
    /// Check a ticket by a state.
    Check {
        /// The file of the state.
        from: &'a str,
        /// The file of the ticket, where it is named; else standard input.
        feed: Option<&'a str>,
    },
    /// Check a ticket by all outputs.
    Recheck {
        /// The network, mainnet where none is named.
        net: Net,
        /// The file of the ticket.
        from: &'a str,
        /// The file of the feed that is audited, where it is named; else standard input.
        feed: Option<&'a str>,
        /// The file of the watch list by which lean proofs are read, where it is named.
        watch: Option<&'a str>,
    },
    /// Run a bridge and its followers by a script.
    Relay {
        /// The network, mainnet where none is named.
        net: Net,
        /// How many followers there are, 1 to 100.
        followers: u32,
        /// The file of the bridge's feed, where it is named; else standard input.
        feed: Option<&'a str>,
        /// The file of the script, where it is named; else the script is empty.
        from: Option<&'a str>,
        /// The file of the first follower's watch list, where it is named; else nothing is watched.
        watch: Option<&'a str>,
    },
}

impl<'a> Command<'a> {
    /// Whether the command reads a feed: the file that its settings name, else standard input.
    pub fn reads_feed(&self) -> bool
        ensures { result ≡ reads_feed (task_in self.now) }
    {
        !matches!(
            self,
            Command::Gen { .. } | Command::UpgradeState { .. } | Command::Ticket { .. }
        )
    }

    /// What the options say. An option that the command does not have is none; the network of a command other than `follow` is named.
    pub fn settings(&self) -> Options<'a>
        ensures { settings_in result ≡ given_in self.now }
    {
        Options {
            net: self.net(),
            feed: self.feed(),
            from: self.from(),
            to: self.to(),
            watch: self.watch(),
        }
    }

    fn net(&self) -> Option<Net>
        ensures { result ≡ (given_in self.now).net }
    {
        match *self {
            Command::Follow { net, .. } => net,
            Command::Prove { net, .. }
            | Command::Audit { net, .. }
            | Command::Gen { net, .. }
            | Command::UpgradeFeed { net, .. }
            | Command::Order { net, .. }
            | Command::Recheck { net, .. }
            | Command::Relay { net, .. } => Some(net),
            Command::UpgradeState { .. } | Command::Ticket { .. } | Command::Check { .. } => None,
        }
    }

    fn feed(&self) -> Option<&'a str>
        ensures { option_copied result ≡ (given_in self.now).feed }
    {
        match *self {
            Command::Follow { feed, .. }
            | Command::Prove { feed, .. }
            | Command::Audit { feed, .. }
            | Command::UpgradeFeed { feed, .. }
            | Command::Order { feed, .. }
            | Command::Check { feed, .. }
            | Command::Recheck { feed, .. }
            | Command::Relay { feed, .. } => feed,
            _ => None,
        }
    }

    fn from(&self) -> Option<&'a str>
        ensures { option_copied result ≡ (given_in self.now).from }
    {
        match *self {
            Command::Follow { from, .. } | Command::Relay { from, .. } => from,
            Command::UpgradeState { from, .. }
            | Command::Ticket { from, .. }
            | Command::Check { from, .. }
            | Command::Recheck { from, .. } => Some(from),
            _ => None,
        }
    }

    fn to(&self) -> Option<&'a str>
        ensures { option_copied result ≡ (given_in self.now).to }
    {
        match *self {
            Command::Follow { to, .. }
            | Command::Prove { to, .. }
            | Command::Gen { to, .. }
            | Command::UpgradeFeed { to, .. }
            | Command::UpgradeState { to, .. }
            | Command::Order { to, .. }
            | Command::Ticket { to, .. } => to,
            _ => None,
        }
    }

    fn watch(&self) -> Option<&'a str>
        ensures { option_copied result ≡ (given_in self.now).watch }
    {
        match *self {
            Command::Follow { watch, .. }
            | Command::Prove { watch, .. }
            | Command::Audit { watch, .. }
            | Command::UpgradeFeed { watch, .. }
            | Command::Recheck { watch, .. }
            | Command::Relay { watch, .. } => watch,
            _ => None,
        }
    }
}

/// Words that ask for nothing that the program does.
#[derive(Clone, Copy, Debug, PartialEq, Eq)]
pub struct WordFault {
    /// The greatest number of words from the first on that begin some accepted list of words: so the index of the first
    /// bad word, or the count of words where one is missing.
    pub at: u64,
}

/// Reads the words of the command line, those behind the program's name.
///
/// A command comes first, then the words of its own, then its options in any order, each at most once and with its value as the
/// next word. No accepted word is empty. `command_in` reads them; that what it reads is what they mean is said here.
pub fn read_words(words: &[String]) -> Result<Command<'_>, WordFault>
    ensures exact { read_as result ≡ command_of (map string_bytes words.now) }
    ensures meaning { Means (map string_bytes words.now) (read_as result) }
    ensures filled { IfOk result (λ command. All (λ word. 0 < length word) (map string_bytes words.now)) }
{
    command_in(words)
}

// What the words say: those in front of the options, and the options.
fn command_in(words: &[String]) -> Result<Command<'_>, WordFault>
    ensures { read_as result ≡ command_of (map string_bytes words.now) }
{
    match front_in(words) {
        Ok(Parted { front, rest }) => command_behind(front, rest),
        Err(fault) => Err(fault),
    }
}

// A command with these words as its options.
fn command_behind<'a>(front: Front<'a>, words: &'a [String]) -> Result<Command<'a>, WordFault>
    ensures { read_as result ≡ options_at (task_of front.entry) (map string_bytes words.now) }
{
    match options_behind(&front, words) {
        Ok(given) => command_with(front, given, front.count() + words.len() as u64),
        Err(fault) => Err(fault),
    }
}

// What these words say as options of a command.
fn options_behind<'a>(front: &Front<'_>, words: &'a [String]) -> Result<Options<'a>, WordFault>
    ensures { settings_read result ≡ settings_at (task_of front.now) (map string_bytes words.now) }
{
    let none = Options::none();
    read_options(front.rule(), front.options(), front.count(), none, words)
}

// A command with what its options say, which end at this index.
fn command_with<'a>(
    front: Front<'a>,
    given: Options<'a>,
    end: u64,
) -> Result<Command<'a>, WordFault>
    ensures { read_as result ≡ read_for (task_of front.entry) end (Ok (settings_in given.entry)) }
{
    match front {
        Front::Follow => follow_with(given),
        Front::Prove => prove_with(given),
        Front::Audit => audit_with(given),
        Front::Gen { number, blocks } => gen_with(number, blocks, given),
        Front::UpgradeFeed => upgrade_feed_with(given),
        Front::UpgradeState => upgrade_state_with(given, end),
        Front::Order { tip } => order_with(tip, given),
        Front::Ticket { number } => ticket_with(number, given, end),
        Front::Check => check_with(given, end),
        Front::Recheck => recheck_with(given, end),
        Front::Relay { followers } => relay_with(followers, given),
    }
}

fn follow_with(given: Options<'_>) -> Result<Command<'_>, WordFault>
    ensures { read_as result ≡ Ok (asked_by Following (settings_in given.entry)) }
{
    Ok(Command::Follow {
        net: given.net,
        feed: given.feed,
        from: given.from,
        to: given.to,
        watch: given.watch,
    })
}

fn prove_with(given: Options<'_>) -> Result<Command<'_>, WordFault>
    ensures { read_as result ≡ Ok (asked_by Proving (settings_in given.entry)) }
{
    Ok(Command::Prove {
        net: given.net.unwrap_or(Net::Main),
        feed: given.feed,
        to: given.to,
        watch: given.watch,
    })
}

fn audit_with(given: Options<'_>) -> Result<Command<'_>, WordFault>
    ensures { read_as result ≡ Ok (asked_by Auditing (settings_in given.entry)) }
{
    Ok(Command::Audit {
        net: given.net.unwrap_or(Net::Main),
        feed: given.feed,
        watch: given.watch,
    })
}

fn gen_with(number: u64, blocks: u32, given: Options<'_>) -> Result<Command<'_>, WordFault>
    ensures { read_as result ≡ Ok (asked_by (Generating number blocks) (settings_in given.entry)) }
{
    Ok(Command::Gen {
        net: given.net.unwrap_or(Net::Main),
        number,
        blocks,
        to: given.to,
    })
}

fn upgrade_feed_with(given: Options<'_>) -> Result<Command<'_>, WordFault>
    ensures { read_as result ≡ Ok (asked_by UpgradingFeed (settings_in given.entry)) }
{
    Ok(Command::UpgradeFeed {
        net: given.net.unwrap_or(Net::Main),
        feed: given.feed,
        to: given.to,
        watch: given.watch,
    })
}

fn upgrade_state_with(given: Options<'_>, end: u64) -> Result<Command<'_>, WordFault>
    ensures { read_as result ≡ read_for UpgradingState end (Ok (settings_in given.entry)) }
{
    let Some(from) = given.from else {
        return Err(WordFault { at: end });
    };
    Ok(Command::UpgradeState { from, to: given.to })
}

fn order_with<'a>(tip: &'a str, given: Options<'a>) -> Result<Command<'a>, WordFault>
    ensures { read_as result ≡ Ok (asked_by (Ordering tip.now) (settings_in given.entry)) }
{
    Ok(Command::Order {
        net: given.net.unwrap_or(Net::Main),
        tip,
        feed: given.feed,
        to: given.to,
    })
}

fn ticket_with(number: u64, given: Options<'_>, end: u64) -> Result<Command<'_>, WordFault>
    ensures { read_as result ≡ read_for (Ticketing number) end (Ok (settings_in given.entry)) }
{
    let Some(from) = given.from else {
        return Err(WordFault { at: end });
    };
    Ok(Command::Ticket {
        number,
        from,
        to: given.to,
    })
}

fn check_with(given: Options<'_>, end: u64) -> Result<Command<'_>, WordFault>
    ensures { read_as result ≡ read_for Checking end (Ok (settings_in given.entry)) }
{
    let Some(from) = given.from else {
        return Err(WordFault { at: end });
    };
    Ok(Command::Check {
        from,
        feed: given.feed,
    })
}

fn recheck_with(given: Options<'_>, end: u64) -> Result<Command<'_>, WordFault>
    ensures { read_as result ≡ read_for Rechecking end (Ok (settings_in given.entry)) }
{
    let Some(from) = given.from else {
        return Err(WordFault { at: end });
    };
    Ok(Command::Recheck {
        net: given.net.unwrap_or(Net::Main),
        from,
        feed: given.feed,
        watch: given.watch,
    })
}

fn relay_with(followers: u32, given: Options<'_>) -> Result<Command<'_>, WordFault>
    ensures { read_as result ≡ Ok (asked_by (Relaying followers) (settings_in given.entry)) }
{
    Ok(Command::Relay {
        net: given.net.unwrap_or(Net::Main),
        followers,
        feed: given.feed,
        from: given.from,
        watch: given.watch,
    })
}
