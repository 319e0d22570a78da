//! What roots say of a ticket: the first reason against it.
ghost use Rattle.std.specs.Prelude.{◌≡◌, ◌<◌};

use block_rules::ProofRefusal::{EmptyRoot, HashCount, Outside, RootDiffers};
use forest_roots::Roots;
use leaf_record::RestView;
use std::alloc::Global;
use std::marker::Brand;
use std::process::Abort;
use std::sync::ledger::{Blank, Ledger};
use std::test::Fail;
use ticket_check::TicketVerdict::{Live, Refused, Tip};
use ticket_check::{TicketVerdict, judge, put_ticket, read_ticket};
use uo_digest::{Digest, Sha512t256, Steps};

/// The pair of the right output's leaf and of 32 bytes `06`.
const ROOT: Digest = Digest([
    0x7e, 0x2f, 0x91, 0xab, 0xa3, 0x99, 0x2e, 0x0b, 0x1a, 0x40, 0xd1, 0x07, 0xc2, 0x5a, 0xbe, 0x48,
    0x4b, 0x98, 0xd4, 0xcf, 0x12, 0xba, 0x8b, 0x47, 0x62, 0x5d, 0xea, 0x7a, 0x69, 0xe1, 0x07, 0x75,
]);

/// A ticket: which byte its block's hash repeats, the place, the amount, and which bytes its hashes repeat. And what is said of it.
struct Row(u8, u64, u64, &'static [u8], TicketVerdict);

const ROWS: [Row; 12] = [
    Row(7, 0, 5, &[6], Live),
    Row(8, 3, 6, &[], Tip),
    // Neither an entry nor a pair of this forest stands there.
    Row(7, 3, 5, &[6], Refused(Outside(0))),
    Row(7, 1 << 40 | 1, 5, &[], Refused(Outside(0))),
    Row(7, 0, 6, &[], Refused(HashCount { want: 1, got: 0 })),
    Row(7, 0, 5, &[6, 6], Refused(HashCount { want: 1, got: 2 })),
    Row(7, 2, 5, &[6], Refused(HashCount { want: 0, got: 1 })),
    Row(7, 2, 5, &[], Refused(EmptyRoot { row: 0 })),
    // Another amount, another hash, the other half, and the root itself.
    Row(7, 0, 6, &[6], Refused(RootDiffers { row: 1 })),
    Row(7, 0, 5, &[7], Refused(RootDiffers { row: 1 })),
    Row(7, 1, 5, &[6], Refused(RootDiffers { row: 1 })),
    Row(7, 1 << 40, 5, &[], Refused(RootDiffers { row: 1 })),
];

fn ticket_of(alloc: Global, row: &Row) -> Result<Vec<u8>, Fail> {
    let rest = RestView {
        block: Digest([1; 32]),
        height: 4,
        coinbase: true,
        amount: row.2,
        script: b"\x51",
    };
    let mut hashes = Vec::new(alloc);
    for byte in row.3 {
        hashes.push(Digest([*byte; 32]))?;
    }
    let leaf = rest.with_outpoint(Digest([2; 32]), 3);
    let mut text = Vec::new(alloc);
    put_ticket(Digest([row.0; 32]), row.1, &leaf, &hashes, &mut text)?;
    Ok(text)
}

/// What these roots say of a text, behind the block whose hash repeats `07`.
fn judged<L: Ledger>(
    alloc: Global,
    roots: &Roots<Sha512t256>,
    text: &[u8],
    steps: &mut Steps<L>,
) -> Result<TicketVerdict, Fail> {
    let ticket = read_ticket(text)?;
    Ok(judge(alloc, roots, &Digest([7; 32]), &ticket, steps)?)
}

/// Of three entries the third is spent.
fn check_rows<L: Ledger>(rt: &impl Abort, alloc: Global, blank: Blank) -> Result<(), Fail>
    requires name { blank.name ≡ L.name }
    requires parts { blank.parts ≡ L.parts }
    requires some { 0 < blank.parts }
{
    let mut steps = Steps::<L>::new(blank);
    let mut roots = Roots::<Sha512t256>::of(3);
    roots.put_root(1, Some(ROOT));
    for row in &ROWS {
        let text = ticket_of(alloc, row)?;
        assert!(rt; judged(alloc, &roots, &text, &mut steps)? == row.4);
    }
    Ok(())
}

#[test]
fn first_reasons(rt: HostRuntime) -> Result<(), Fail> {
    check_rows::<Brand>(&rt, rt.alloc(), Blank::new(1))
}
