//! Lists of words, and what they ask for.
use command_words::{Command, WordFault, read_words};
use std::alloc::Global;
use std::process::Abort;
use std::test::Fail;
use uo_base::Net;

/// Words that are accepted, and what they ask for.
struct Row {
    words: &'static [&'static str],
    asked: Command<'static>,
}

/// Words that are not, and where they go wrong.
struct BadRow {
    words: &'static [&'static str],
    at: u64,
}

const ROWS: [Row; 29] = [
    Row {
        words: &["follow"],
        asked: Command::Follow {
            net: None,
            feed: None,
            from: None,
            to: None,
            watch: None,
        },
    },
    Row {
        words: &["follow", "--net", "main"],
        asked: Command::Follow {
            net: Some(Net::Main),
            feed: None,
            from: None,
            to: None,
            watch: None,
        },
    },
    Row {
        words: &["follow", "--net", "regtest"],
        asked: Command::Follow {
            net: Some(Net::Regtest),
            feed: None,
            from: None,
            to: None,
            watch: None,
        },
    },
    // in both orders
    Row {
        words: &["follow", "--net", "regtest", "--feed", "blocks"],
        asked: Command::Follow {
            net: Some(Net::Regtest),
            feed: Some("blocks"),
            from: None,
            to: None,
            watch: None,
        },
    },
    Row {
        words: &["follow", "--feed", "blocks", "--net", "main"],
        asked: Command::Follow {
            net: Some(Net::Main),
            feed: Some("blocks"),
            from: None,
            to: None,
            watch: None,
        },
    },
    // a file's name that begins with a dash, and one that is an option's
    Row {
        words: &["follow", "--feed", "-"],
        asked: Command::Follow {
            net: None,
            feed: Some("-"),
            from: None,
            to: None,
            watch: None,
        },
    },
    Row {
        words: &["follow", "--feed", "--feed"],
        asked: Command::Follow {
            net: None,
            feed: Some("--feed"),
            from: None,
            to: None,
            watch: None,
        },
    },
    Row {
        words: &["follow", "--feed", "--net", "--net", "main"],
        asked: Command::Follow {
            net: Some(Net::Main),
            feed: Some("--net"),
            from: None,
            to: None,
            watch: None,
        },
    },
    Row {
        words: &["follow", "--watch", "w", "--net", "regtest", "--to", "s"],
        asked: Command::Follow {
            net: Some(Net::Regtest),
            feed: None,
            from: None,
            to: Some("s"),
            watch: Some("w"),
        },
    },
    Row {
        words: &["follow", "--from", "s", "--feed", "f", "--to", "s"],
        asked: Command::Follow {
            net: None,
            feed: Some("f"),
            from: Some("s"),
            to: Some("s"),
            watch: None,
        },
    },
    // feeds to prove, with options in several orders
    Row {
        words: &["prove"],
        asked: Command::Prove {
            net: Net::Main,
            feed: None,
            to: None,
            watch: None,
        },
    },
    Row {
        words: &["prove", "--to", "x", "--net", "regtest", "--feed", "f"],
        asked: Command::Prove {
            net: Net::Regtest,
            feed: Some("f"),
            to: Some("x"),
            watch: None,
        },
    },
    Row {
        words: &["prove", "--feed", "--to", "--net", "main"],
        asked: Command::Prove {
            net: Net::Main,
            feed: Some("--to"),
            to: None,
            watch: None,
        },
    },
    Row {
        words: &["prove", "--watch", "w", "--feed", "f"],
        asked: Command::Prove {
            net: Net::Main,
            feed: Some("f"),
            to: None,
            watch: Some("w"),
        },
    },
    // feeds to audit
    Row {
        words: &["audit"],
        asked: Command::Audit {
            net: Net::Main,
            feed: None,
            watch: None,
        },
    },
    Row {
        words: &["audit", "--watch", "w", "--net", "regtest", "--feed", "f"],
        asked: Command::Audit {
            net: Net::Regtest,
            feed: Some("f"),
            watch: Some("w"),
        },
    },
    // feeds to generate, with the greatest numbers
    Row {
        words: &["gen", "1", "0"],
        asked: Command::Gen {
            net: Net::Main,
            number: 1,
            blocks: 0,
            to: None,
        },
    },
    Row {
        words: &[
            "gen",
            "18446744073709551615",
            "100000",
            "--to",
            "7",
            "--net",
            "regtest",
        ],
        asked: Command::Gen {
            net: Net::Regtest,
            number: 18_446_744_073_709_551_615,
            blocks: 100_000,
            to: Some("7"),
        },
    },
    // feeds and states to write anew
    Row {
        words: &["upgrade", "feed"],
        asked: Command::UpgradeFeed {
            net: Net::Main,
            feed: None,
            to: None,
            watch: None,
        },
    },
    Row {
        words: &[
            "upgrade", "feed", "--watch", "w", "--to", "t", "--feed", "f", "--net", "regtest",
        ],
        asked: Command::UpgradeFeed {
            net: Net::Regtest,
            feed: Some("f"),
            to: Some("t"),
            watch: Some("w"),
        },
    },
    Row {
        words: &["upgrade", "state", "--to", "t", "--from", "s"],
        asked: Command::UpgradeState {
            from: "s",
            to: Some("t"),
        },
    },
    // blocks to put in order, up to the first block and up to one of another network
    Row {
        words: &["order", FIRST],
        asked: Command::Order {
            net: Net::Main,
            tip: FIRST,
            feed: None,
            to: None,
        },
    },
    Row {
        words: &[
            "order", ZEROS, "--to", "t", "--net", "regtest", "--feed", "f",
        ],
        asked: Command::Order {
            net: Net::Regtest,
            tip: ZEROS,
            feed: Some("f"),
            to: Some("t"),
        },
    },
    // tickets, and what they are checked by
    Row {
        words: &["ticket", "18446744073709551615", "--from", "s"],
        asked: Command::Ticket {
            number: 18_446_744_073_709_551_615,
            from: "s",
            to: None,
        },
    },
    Row {
        words: &["ticket", "0", "--to", "t", "--from", "s"],
        asked: Command::Ticket {
            number: 0,
            from: "s",
            to: Some("t"),
        },
    },
    Row {
        words: &["check", "--feed", "t", "--from", "s"],
        asked: Command::Check {
            from: "s",
            feed: Some("t"),
        },
    },
    // beside `--from` all options may stand here
    Row {
        words: &[
            "recheck", "--from", "t", "--net", "regtest", "--watch", "w", "--feed", "f",
        ],
        asked: Command::Recheck {
            net: Net::Regtest,
            from: "t",
            feed: Some("f"),
            watch: Some("w"),
        },
    },
    Row {
        words: &["relay", "1"],
        asked: Command::Relay {
            net: Net::Main,
            followers: 1,
            feed: None,
            from: None,
            watch: None,
        },
    },
    Row {
        words: &[
            "relay", "100", "--watch", "w", "--net", "main", "--from", "s", "--feed", "f",
        ],
        asked: Command::Relay {
            net: Net::Main,
            followers: 100,
            feed: Some("f"),
            from: Some("s"),
            watch: Some("w"),
        },
    },
];

/// The hash of mainnet's first block, as it is printed.
const FIRST: &str = "000000000019d6689c085ae165831e934ff763ae46a2a6c172b3f1b60a8ce26f";

const ZEROS: &str = "0000000000000000000000000000000000000000000000000000000000000000";

/// All others are asked of the built program.
const BAD_ROWS: [BadRow; 3] = [
    BadRow { words: &[], at: 0 },
    BadRow {
        words: &["follow", "--net"],
        at: 2,
    },
    BadRow {
        words: &["gen", "7", "100001"],
        at: 2,
    },
];

fn words_of(alloc: Global, texts: &[&'static str]) -> Result<Vec<String>, Fail> {
    let mut words = Vec::new(alloc);
    for text in texts {
        words.push(String::from_str(alloc, *text)?)?;
    }
    Ok(words)
}

fn check_row(rt: &impl Abort, alloc: Global, row: &Row) -> Result<(), Fail> {
    let words = words_of(alloc, row.words)?;
    assert!(rt; read_words(&words) == Ok(row.asked));
    Ok(())
}

fn check_bad_row(rt: &impl Abort, alloc: Global, row: &BadRow) -> Result<(), Fail> {
    let words = words_of(alloc, row.words)?;
    assert!(rt; read_words(&words) == Err(WordFault { at: row.at }));
    Ok(())
}

#[test]
fn accepted_words(rt: HostRuntime) -> Result<(), Fail> {
    for row in &ROWS {
        check_row(&rt, rt.alloc(), row)?;
    }
    Ok(())
}

#[test]
fn refused_words(rt: HostRuntime) -> Result<(), Fail> {
    for row in &BAD_ROWS {
        check_bad_row(&rt, rt.alloc(), row)?;
    }
    Ok(())
}
