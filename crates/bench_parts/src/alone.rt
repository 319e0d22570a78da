//! Digests with nothing around them, one after the other, so that none can be left out.
use forest_roots::pair;
use leaf_record::{RestView, leaf_text};
use std::alloc::Global;
use std::sync::ledger::Ledger;
use uo_base::NoMemory;
use uo_digest::{Digest, Digester, Steps};

/// So many digests of pairs, each of the digest before it, twice.
pub fn pairs_alone<D: Digester, L: Ledger>(count: u64, steps: &mut Steps<L>) -> Digest {
    let mut last = Digest([1; 32]);
    for _ in 0..count {
        last = pair::<D, L>(last, last, steps);
    }
    last
}

/// So many digests of whole leaf texts, each of an output whose id is the digest before it. Its script has one byte, so the text has two
/// blocks of SHA-512, of which the first is the same in all.
pub fn leaves_alone<D: Digester, L: Ledger>(
    alloc: Global,
    count: u64,
    steps: &mut Steps<L>,
) -> Result<Digest, NoMemory> {
    let mut last = Digest([1; 32]);
    let mut text = Vec::new(alloc);
    let rest = RestView {
        block: last,
        height: 7,
        coinbase: false,
        amount: 5,
        script: b"\x51",
    };
    for _ in 0..count {
        text.clear();
        leaf_text(&rest.with_outpoint(last, 0), &mut text)?;
        last = D::digest(&text, steps);
    }
    Ok(last)
}
