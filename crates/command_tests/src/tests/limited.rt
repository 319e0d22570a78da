//! Limits that a run reaches, ports that fail at one call, and ports that move few bytes at once.

use super::{ANY, FEED, LIST, PLAIN, PRIOR, REPORT, Row, Setup, check_rows};
use feed_run::Status;
use std::test::Fail;

/// The frame of mainnet's first block.
const GENESIS: &str =
    "f9beb4d91d0100000100000000000000000000000000000000000000000000000000000000000000000000003ba3edfd7a7b12b27ac72c3e67768f617fc81bc3\
    888a51323a9fb8aa4b1e5e4a29ab5f49ffff001d1dac2b7c0101000000010000000000000000000000000000000000000000000000000000000000000000ffff\
    ffff4d04ffff001d0104455468652054696d65732030332f4a616e2f32303039204368616e63656c6c6f72206f6e206272696e6b206f66207365636f6e642062\
    61696c6f757420666f722062616e6b73ffffffff0100f2052a01000000434104678afdb0fe5548271967f1a67130b7105cd6a828e03909a67962e0ea1f61deb6\
    49f6bc3f4cef38c4f35504e51ec112de5c384df7ba0b8d578a4c702b6bf11d5fac00000000";

const TAKEN: &str =
    "accepted 0 000000000019d6689c085ae165831e934ff763ae46a2a6c172b3f1b60a8ce26f 0\n";

/// It is there once.
const AGAIN: &str =
    "refused 1 000000000019d6689c085ae165831e934ff763ae46a2a6c172b3f1b60a8ce26f link\n\
    end 2 0 000000000019d6689c085ae165831e934ff763ae46a2a6c172b3f1b60a8ce26f 0\n";

const FOLLOW: &[&str] = &["follow"];

const PROVE: &[&str] = &["prove", "--watch", "w"];

/// Zero bytes, of which 52 end the state behind the first block.
const ZEROS: &str =
    "00000000000000000000000000000000000000000000000000000000000000000000000000000000000000000000000000000000";

/// How that state begins.
const FIRST: &str =
    "5554585302000100000000026fe28c0ab6f1b372c1a6a246ae63f74f931e8365e15a089c68d6190000000000";

/// Twice the block, with a zero byte between and before.
const TWICE: Row = Row {
    words: FOLLOW,
    feed: &["00", GENESIS, "00", GENESIS],
    prior: "",
    list: "",
    setup: PLAIN,
    status: Status::SomeRefused,
    report: &[TAKEN, AGAIN],
    out: &[FIRST, ZEROS],
};

/// No byte is read or written.
const NOTHING: Row = Row {
    words: FOLLOW,
    feed: &[],
    prior: "",
    list: "",
    setup: PLAIN,
    status: Status::AllAccepted,
    report: &["end 0 - - 0\n"],
    out: &[],
};

/// Room for so many bytes.
const EIGHT: Setup = Setup { bytes: 8, ..PLAIN };

const BYTES: [Row; 6] = [
    // nine bytes and eight
    Row {
        feed: &["000000000000000000"],
        setup: EIGHT,
        status: Status::InputLimit,
        report: &["limit feed 8\n"],
        ..NOTHING
    },
    Row {
        words: &["prove"],
        feed: &["0000000000000000"],
        setup: EIGHT,
        ..NOTHING
    },
    Row {
        words: &["follow", "--from", "s"],
        prior: "555458530000000000",
        setup: EIGHT,
        status: Status::InputLimit,
        report: &["limit prior 8\n"],
        ..NOTHING
    },
    Row {
        words: PROVE,
        list: "51\n52\n53\n",
        setup: EIGHT,
        status: Status::InputLimit,
        report: &["limit watch 8\n"],
        ..NOTHING
    },
    Row {
        words: PROVE,
        list: "51\n52\n53",
        setup: EIGHT,
        ..NOTHING
    },
    // what comes before is stored
    Row {
        words: &["upgrade", "feed"],
        feed: &[GENESIS, "555458520400000000000000"],
        setup: Setup {
            bytes: 300,
            ..PLAIN
        },
        status: Status::InputLimit,
        report: &["limit feed 300\n"],
        out: &[GENESIS],
        ..NOTHING
    },
];

/// Pieces of several sizes, and calls that fail: the third of the feed in pieces of 64, the first of the report, the second of a state and of a list.
const PORTS: [Row; 7] = [
    Row {
        setup: Setup { piece: 1, ..PLAIN },
        ..TWICE
    },
    Row {
        setup: Setup { piece: 7, ..PLAIN },
        ..TWICE
    },
    Row {
        setup: Setup {
            piece: 64,
            bytes: ANY,
            ..PLAIN
        },
        ..TWICE
    },
    Row {
        feed: &[GENESIS],
        setup: Setup {
            piece: 64,
            port: FEED,
            call: Some(2),
            ..PLAIN
        },
        status: Status::ReadFault,
        report: &[],
        ..NOTHING
    },
    Row {
        feed: &[GENESIS],
        setup: Setup {
            port: REPORT,
            call: Some(0),
            ..PLAIN
        },
        status: Status::WriteFault,
        report: &[],
        ..NOTHING
    },
    Row {
        words: &["follow", "--from", "s"],
        prior: "5554585302",
        setup: Setup {
            piece: 4,
            port: PRIOR,
            call: Some(1),
            ..PLAIN
        },
        status: Status::ReadFault,
        report: &[],
        ..NOTHING
    },
    Row {
        words: PROVE,
        list: "51\n5g\n",
        setup: Setup {
            piece: 4,
            port: LIST,
            call: Some(1),
            ..PLAIN
        },
        status: Status::ReadFault,
        report: &[],
        ..NOTHING
    },
];

/// Two blocks, of which the second adds an output, and one for whose output there is no room.
const FULL: [Row; 1] = [Row {
    feed: &[
        "f9beb4d9920000000100000000000000000000000000000000000000000000000000000000000000000000005b2aaaebfd30c7a2b4f23b7e024fd0cf1be01e56\
        fc46b39358a8b724b8ed81e60000000000000000000000000101000000010000000000000000000000000000000000000000000000000000000000000000ffff\
        ffff0400000000ffffffff0100f2052a01000000015100000000",
        "f9beb4d992000000010000005d1f208cb770b9cea3ac6509bad966689e74a97c51435bb9ede640cabbf6f3332a7d6a5ce258e9692bb459c6409fee2bdd16bd4c\
        37f1ff1ac242d3591d03764f0000000000000000000000000101000000010000000000000000000000000000000000000000000000000000000000000000ffff\
        ffff0401000000ffffffff0100f2052a01000000015100000000",
        "f9beb4d99200000001000000a9ebbd3795610d483af663a66e5cc73440fe1a8e9aaf1d5902b99563a3a045b64b4eacdfc6d16a919f48681788a3156c46f9a445\
        c1bc3a898f9cb9b672a5e6130000000000000000000000000101000000010000000000000000000000000000000000000000000000000000000000000000ffff\
        ffff0402000000ffffffff0100f2052a01000000015100000000",
    ],
    setup: Setup { leaves: 1, ..PLAIN },
    status: Status::SomeRefused,
    report: &[
        "accepted 0 33f3f6bbca40e6edb95b43517ca9749e6866d9ba0965aca3ceb970b78c201f5d 0\n",
        "accepted 1 b645a0a36395b902591daf9a8e1afe4034c75c6ea663f63a480d619537bdeba9 1\n",
        "refused 2 82cc20df0c3c5a842ec5373e6559f03afe05ce16b531c53ffffc4772646a01c4 full\n",
        "end 3 1 b645a0a36395b902591daf9a8e1afe4034c75c6ea663f63a480d619537bdeba9 1\n",
    ],
    out: &[
        "555458530200020000000003a9ebbd3795610d483af663a66e5cc73440fe1a8e9aaf1d5902b99563a3a045b60100000000000000018396d76b7439e42111b03f\
        4a2fc3291f9cb9a7c2ad5ee243c0fb463abea333f900005d1f208cb770b9cea3ac6509bad966689e74a97c51435bb9ede640cabbf6f333",
        ZEROS,
    ],
    ..NOTHING
}];

#[test]
fn limits_and_ports(rt: HostRuntime) -> Result<(), Fail> {
    check_rows(&rt, rt.alloc(), &BYTES)?;
    check_rows(&rt, rt.alloc(), &PORTS)?;
    check_rows(&rt, rt.alloc(), &FULL)
}
