//! Scripts of a relay, and where other texts go wrong.
use relay_script::{ScriptLine, read_script};
use std::process::Abort;
use std::test::Fail;

const SCRIPT: &str = "bridge\nask 0\nserve 18446744073709551615\ndeliver 4294967295 10\n";

const LINES: [ScriptLine; 4] = [
    ScriptLine::Bridge,
    ScriptLine::Ask { follower: 0 },
    ScriptLine::Serve {
        ask: 18_446_744_073_709_551_615,
    },
    ScriptLine::Deliver {
        follower: 4_294_967_295,
        reply: 10,
    },
];

/// A text that is no script, and the number of its first bad line.
struct BadRow {
    text: &'static str,
    line: u64,
}

const BAD_ROWS: [BadRow; 14] = [
    BadRow {
        text: "ask 00\n",
        line: 1,
    },
    BadRow {
        text: "bridge",
        line: 1,
    },
    BadRow {
        text: "bridge\nserve 1",
        line: 2,
    },
    BadRow {
        text: "\n",
        line: 1,
    },
    BadRow {
        text: "bridge\n\nbridge\n",
        line: 2,
    },
    BadRow {
        text: "Bridge\n",
        line: 1,
    },
    BadRow {
        text: "bridge \n",
        line: 1,
    },
    BadRow {
        text: "bridge\nask 1\r\n",
        line: 2,
    },
    BadRow {
        text: "ask 4294967296\n",
        line: 1,
    },
    BadRow {
        text: "serve 18446744073709551616\n",
        line: 1,
    },
    BadRow {
        text: "serve +1\n",
        line: 1,
    },
    BadRow {
        text: "deliver 0\n",
        line: 1,
    },
    BadRow {
        text: "deliver 0  1\n",
        line: 1,
    },
    BadRow {
        text: "bridge\nbridge\ndeliver 0 1 \n",
        line: 3,
    },
];

// The number of the first bad line of a text, if it is no script.
fn first_bad(text: &[u8]) -> Option<u64> {
    match read_script(text) {
        Ok(_) => None,
        Err(fault) => Some(fault.line),
    }
}

#[test]
fn a_script_is_read_line_by_line(rt: HostRuntime) -> Result<(), Fail> {
    match read_script(SCRIPT.as_bytes()) {
        Ok(mut script) => {
            for line in &LINES {
                assert!(rt; script.next_line() == Some(*line));
            }
            assert!(rt; script.next_line() == None);
        }
        Err(_) => assert!(rt; false),
    }
    assert!(rt; first_bad("".as_bytes()) == None);
    Ok(())
}

#[test]
fn the_first_bad_line_is_told(rt: HostRuntime) -> Result<(), Fail> {
    for row in &BAD_ROWS {
        assert!(rt; first_bad(row.text.as_bytes()) == Some(row.line));
    }
    Ok(())
}
