//! The one text of a ticket, and texts that are none.
use super::bytes_of;
use crate::ticket_length;
use std::alloc::Global;
use std::process::Abort;
use std::test::Fail;
use ticket_check::{TicketFault, TicketView, put_ticket, read_ticket};
use uo_digest::Digest;

const MAGIC: &str = "55545854";

/// What stands between the version and the count of hashes.
const BODY: &str =
    "07070707070707070707070707070707070707070707070707070707070707070807060504030201020202020202020202020202020202020202020202020202\
    02020202020202020300000001010101010101010101010101010101010101010101010101010101010101010900000005000000000000000151";

const HASHES: &str =
    "06060606060606060606060606060606060606060606060606060606060606060808080808080808080808080808080808080808080808080808080808080808";

/// The text of a ticket.
const WHOLE: [&str; 5] = [MAGIC, "01", BODY, "02", HASHES];

/// A text, and why it is not read, if it is not.
struct Row(&'static [&'static str], Option<TicketFault>);

const NONE: Option<TicketFault> = Some(TicketFault::NotATicket);

const ROWS: [Row; 14] = [
    Row(&WHOLE, None),
    Row(&[MAGIC, "01", BODY, "00"], None),
    // A byte more, a hash too many, and hashes that are not there.
    Row(&[MAGIC, "01", BODY, "02", HASHES, "00"], NONE),
    Row(&[MAGIC, "01", BODY, "01", HASHES], NONE),
    Row(&[MAGIC, "01", BODY, "03", HASHES], NONE),
    Row(&[MAGIC, "01", BODY, "ffffffffffffffffff", HASHES], NONE),
    // The count of hashes is spelled in more bytes than it needs.
    Row(&[MAGIC, "01", BODY, "fd0200", HASHES], NONE),
    // How a state begins.
    Row(&["5554585301", BODY, "02", HASHES], NONE),
    Row(&[MAGIC], NONE),
    Row(&[], NONE),
    Row(
        &[MAGIC, "02", BODY, "02", HASHES],
        Some(TicketFault::Version(2)),
    ),
    Row(
        &[MAGIC, "00", BODY, "02", HASHES],
        Some(TicketFault::Version(0)),
    ),
    Row(&[MAGIC, "ff"], Some(TicketFault::Version(255))),
    Row(&[MAGIC, "02", "00"], Some(TicketFault::Version(2))),
];

fn fault_of(text: &[u8]) -> Option<TicketFault> {
    match read_ticket(text) {
        Ok(_) => None,
        Err(fault) => Some(fault),
    }
}

/// The text of what was read.
fn text_of(alloc: Global, ticket: &TicketView<'_>) -> Result<Vec<u8>, Fail> {
    let mut hashes = Vec::new(alloc);
    for i in 0..ticket.hash_count() {
        hashes.push(ticket.hash(i))?;
    }
    let mut text = Vec::new(alloc);
    put_ticket(
        ticket.tip(),
        ticket.target(),
        &ticket.leaf(),
        &hashes,
        &mut text,
    )?;
    Ok(text)
}

fn check_parts(rt: &impl Abort, ticket: &TicketView<'_>) {
    assert!(rt; ticket.tip() == Digest([7; 32]));
    assert!(rt; ticket.target() == 0x0102_0304_0506_0708);
    assert!(rt; ticket.hash_count() == 2);
    assert!(rt; ticket.hash(1) == Digest([8; 32]));
    let leaf = ticket.leaf();
    assert!(rt; leaf.txid == Digest([2; 32]) && leaf.index == 3);
    assert!(rt; leaf.block == Digest([1; 32]) && leaf.height == 4 && leaf.coinbase);
    assert!(rt; leaf.amount == 5 && leaf.script == b"\x51".as_slice());
}

#[test]
fn parts(rt: HostRuntime) -> Result<(), Fail> {
    let alloc = rt.alloc();
    let text = bytes_of(alloc, &WHOLE)?;
    let ticket = read_ticket(&text)?;
    check_parts(&rt, &ticket);
    assert!(rt; text.len() == ticket_length(1, 2));
    assert!(rt; text_of(alloc, &ticket)?.as_slice() == text.as_slice());
    Ok(())
}

/// Each front of a ticket, and other texts.
#[test]
fn forms(rt: HostRuntime) -> Result<(), Fail> {
    let alloc = rt.alloc();
    let text = bytes_of(alloc, &WHOLE)?;
    for end in 0..text.len() {
        assert!(rt; fault_of(&text[..end]) == NONE);
    }
    for row in &ROWS {
        assert!(rt; fault_of(&bytes_of(alloc, row.0)?) == row.1);
    }
    Ok(())
}
