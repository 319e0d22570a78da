//! Tickets judged by all outputs, with a digest under which texts clash.
ghost use Rattle.std.specs.Prelude.{◌≡◌, ◌<◌};

use super::{BEHIND_1, BEHIND_2, BLOCKS, FIRST, SECOND, bytes_of, watch};
use audit_replay::Audit;
use block_rules::ProofRefusal;
use clash_find::Clash;
use std::alloc::Global;
use std::marker::Brand;
use std::process::Abort;
use std::sync::ledger::{Blank, Ledger};
use std::test::Fail;
use ticket_check::{Checked, TicketVerdict, recheck_ticket};
use uo_base::{Event, Limits, Net};
use uo_digest::{Digester, Steps, XorFold};

/// The digests of both leaves, and of the pair.
const LEFT: &str = "8396d76b7439e42111b03f4a2fc3291f9cb9a7c2ad5ee243c0fb463abea333f9";

const RIGHT: &str = "8f4fc6bbb196966ea07f5c889f6d10927d58fd20ff8bffa70bc685baad852a91";

const PAIR: &str = "0cd911d0c5af724fb1cf63c2b0ae398de1e15ae252d51de4cb3dc38013261968";

/// The place of the first output, and an outpoint that no block made.
const UNMADE: &str =
    "0000000000000000090909090909090909090909090909090909090909090909090909090909090900000000";

/// What it is said to be, its leaf's digest, and the hash with which that comes to the root.
const CLAIM: &str =
    "05050505050505050505050505050505050505050505050505050505050505050200000007000000000000000151";

const CLAIMED: &str = "0c0c0c0c0e0c0c0c0b0c0c0c0c0c0c0c0d5d0c0c0c0c0c0c0c0c0c0c0c0c0c0c";

const FITTING: &str = "00d51ddccba37e43bac36fcebca23581ecbc56ee5ed911e8c731cf8c1f2a1564";

/// What it is said to be so that its leaf has the digest of the first output's.
const ALIKE: &str =
    "8a9fde627f30ed281fb9364326ca201694e1aecba457eb4ac9f24f33b7aa3af00200000007000000000000000151";

/// How the text of a leaf begins, and the rest of those of the first output and of that one.
const TAG: &str =
    "5b832db8ca26c25be1c542d6cceddda8c145615cff5c35727fb3462610807e20ae534dc3f64299199931772e03787d18156eb3151e0ed1b3098bdc8445861885";

const FIRST_LEAF: &str =
    "a9ebbd3795610d483af663a66e5cc73440fe1a8e9aaf1d5902b99563a3a045b62a7d6a5ce258e9692bb459c6409fee2bdd16bd4c37f1ff1ac242d3591d03764f\
    000000000300000000f2052a010000000151";

const ALIKE_LEAF: &str =
    "8a9fde627f30ed281fb9364326ca201694e1aecba457eb4ac9f24f33b7aa3af00909090909090909090909090909090909090909090909090909090909090909\
    000000000200000007000000000000000151";

/// A ticket, and what is said of it by its tip and the roots. Of a text that is none nothing is.
struct Row(&'static [&'static str], Option<TicketVerdict>);

const ROWS: [Row; 5] = [
    Row(&[BEHIND_2, FIRST, "01", RIGHT], Some(TicketVerdict::Live)),
    Row(&[BEHIND_2, SECOND, "01", LEFT], Some(TicketVerdict::Live)),
    Row(&[BEHIND_1, FIRST, "00"], Some(TicketVerdict::Tip)),
    Row(
        &[BEHIND_2, UNMADE, CLAIM, "01", RIGHT],
        Some(TicketVerdict::Refused(ProofRefusal::RootDiffers { row: 1 })),
    ),
    Row(&[BEHIND_2, FIRST, "01"], None),
];

/// A ticket that the roots accept and that is not right, the two texts that it shows, and their digest.
struct Forgery {
    ticket: &'static [&'static str],
    first: &'static [&'static str],
    second: &'static [&'static str],
    digest: &'static [&'static str],
}

/// The texts meet at the root, and at the leaf.
const FORGERIES: [Forgery; 2] = [
    Forgery {
        ticket: &[BEHIND_2, UNMADE, CLAIM, "01", FITTING],
        first: &[LEFT, RIGHT],
        second: &[CLAIMED, FITTING],
        digest: &[PAIR],
    },
    Forgery {
        ticket: &[BEHIND_2, UNMADE, ALIKE, "01", RIGHT],
        first: &[TAG, TAG, FIRST_LEAF],
        second: &[TAG, TAG, ALIKE_LEAF],
        digest: &[LEFT],
    },
];

/// Judges a block of three, each of which is accepted.
fn extend<L: Ledger>(
    alloc: Global,
    audit: &mut Audit<XorFold>,
    block: &'static str,
    steps: &mut Steps<L>,
) -> Result<(), Fail> {
    let block = hex::decode(alloc, block)?;
    if block.len() > 4_000_000 || audit.ended() {
        return Err("a short block".into());
    }
    let event = Event::Block {
        block: &block,
        message: None,
    };
    audit.step(event, steps)?;
    Ok(())
}

fn recheck<L: Ledger>(
    alloc: Global,
    audit: &Audit<XorFold>,
    ticket: &[&'static str],
    steps: &mut Steps<L>,
) -> Result<Checked, Fail> {
    let text = bytes_of(alloc, ticket)?;
    Ok(recheck_ticket(alloc, audit, &text, steps)?)
}

fn verdict_in(said: &Checked) -> Option<TicketVerdict> {
    match said {
        Checked::Tip => Some(TicketVerdict::Tip),
        Checked::Refused(why) => Some(TicketVerdict::Refused(*why)),
        Checked::Live { .. } => Some(TicketVerdict::Live),
        _ => None,
    }
}

/// Two different texts with one digest.
fn check_clash<L: Ledger>(
    rt: &impl Abort,
    alloc: Global,
    clash: &Clash,
    row: &Forgery,
    steps: &mut Steps<L>,
) -> Result<(), Fail> {
    assert!(rt; clash.first.as_slice() == bytes_of(alloc, row.first)?.as_slice());
    assert!(rt; clash.second.as_slice() == bytes_of(alloc, row.second)?.as_slice());
    assert!(rt; &clash.digest.0[..] == bytes_of(alloc, row.digest)?.as_slice());
    assert!(rt; clash.first.as_slice() != clash.second.as_slice());
    assert!(rt; XorFold::digest(&clash.first, steps) == clash.digest);
    assert!(rt; XorFold::digest(&clash.second, steps) == clash.digest);
    Ok(())
}

fn check_rows<L: Ledger>(rt: &impl Abort, alloc: Global, blank: Blank) -> Result<(), Fail>
    requires name { blank.name ≡ L.name }
    requires parts { blank.parts ≡ L.parts }
    requires some { 0 < blank.parts }
{
    let mut steps = Steps::<L>::new(blank);
    let mut audit = Audit::<XorFold>::new(alloc, Net::Main, Limits::standard(), watch(alloc)?)?;
    for block in BLOCKS {
        extend(alloc, &mut audit, block, &mut steps)?;
    }
    for row in &ROWS {
        let said = recheck(alloc, &audit, row.0, &mut steps)?;
        assert!(rt; verdict_in(&said) == row.1);
    }
    for row in &FORGERIES {
        match recheck(alloc, &audit, row.ticket, &mut steps)? {
            Checked::Clash(clash) => check_clash(rt, alloc, &clash, row, &mut steps)?,
            _ => return Err("a clash".into()),
        }
    }
    Ok(())
}

#[test]
fn by_all_outputs(rt: HostRuntime) -> Result<(), Fail> {
    check_rows::<Brand>(&rt, rt.alloc(), Blank::new(1))
}
