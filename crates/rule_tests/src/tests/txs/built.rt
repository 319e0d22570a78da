//! Transactions of unusual sizes, written by the table of the format alone.
use std::alloc::Global;
use std::test::Fail;

/// How large the parts are, and the two ids, which were computed elsewhere.
#[derive(Drop)]
pub(super) struct Built {
    pub(super) inputs: u32,
    /// The length of each input's script.
    pub(super) script: usize,
    pub(super) outputs: u64,
    /// The lengths of the items in the last input's stack; none for the legacy form.
    pub(super) items: &'static [usize],
    pub(super) txid: &'static [u8; 64],
    pub(super) wtxid: &'static [u8; 64],
}

pub(super) const BUILT: [Built; 6] = [
    Built {
        inputs: 1,
        script: 0,
        outputs: 0,
        items: &[],
        txid: b"77224c9e84687287a71e434e0a4bf2b6e96f53690eb8632187f8bf85046ed41f",
        wtxid: b"77224c9e84687287a71e434e0a4bf2b6e96f53690eb8632187f8bf85046ed41f",
    },
    Built {
        inputs: 252,
        script: 0,
        outputs: 1,
        items: &[],
        txid: b"8793194cb1be6091c8b8495297fdc25ed5c02cdf1a110f3dd87be1baab5bc540",
        wtxid: b"8793194cb1be6091c8b8495297fdc25ed5c02cdf1a110f3dd87be1baab5bc540",
    },
    Built {
        inputs: 253,
        script: 1,
        outputs: 1,
        items: &[],
        txid: b"2e8a2aff922bbb495c980c25c9af016bdde4bfe37b75fc3ee2742c5b705921eb",
        wtxid: b"2e8a2aff922bbb495c980c25c9af016bdde4bfe37b75fc3ee2742c5b705921eb",
    },
    Built {
        inputs: 1,
        script: 65_536,
        outputs: 2,
        items: &[],
        txid: b"417427dd16a45f1ed85bfd2662683e3f1494efd3de7570d9ad2dcbe2ada7eb2d",
        wtxid: b"417427dd16a45f1ed85bfd2662683e3f1494efd3de7570d9ad2dcbe2ada7eb2d",
    },
    Built {
        inputs: 2,
        script: 3,
        outputs: 1,
        items: &[0, 253, 0, 1],
        txid: b"06c123b30627db2188d5862054bf9993f046c0ca5d16c50c1dea546082a5e275",
        wtxid: b"c779994bf07fb88cf6f69c9cf6dc6531f3f134fb8342f4ed15b153ad6ff67448",
    },
    Built {
        inputs: 3,
        script: 252,
        outputs: 253,
        items: &[253],
        txid: b"523e7cce633c18d83793a56eed2f7dd9614e6aec14e2c7614ef8363b84502bc1",
        wtxid: b"cb1282aafe9b65da9c1d1a045f1da8f009a9a12b85771c7a91120cfad69f9ca5",
    },
];

fn put_count(out: &mut Vec<u8>, n: usize) -> Result<(), Fail> {
    let [a, b, c, d, ..] = (n as u64).to_le_bytes();
    if n < 253 {
        out.push(a)?;
    } else if n < 65_536 {
        out.extend_from_slice(&[253, a, b])?;
    } else {
        out.extend_from_slice(&[254, a, b, c, d])?;
    }
    Ok(())
}

fn put_run(out: &mut Vec<u8>, n: usize, byte: u8) -> Result<(), Fail> {
    put_count(out, n)?;
    for _ in 0..n {
        out.push(byte)?;
    }
    Ok(())
}

fn put_inputs(out: &mut Vec<u8>, row: &Built) -> Result<(), Fail> {
    put_count(out, row.inputs as usize)?;
    for index in 0..row.inputs {
        out.extend_from_slice(&[7; 32])?;
        out.extend_from_slice(&index.to_le_bytes())?;
        put_run(out, row.script, 0x51)?;
        out.extend_from_slice(&[0xff, 0xff, 0xff, 0xfe])?;
    }
    Ok(())
}

fn put_outputs(out: &mut Vec<u8>, row: &Built) -> Result<(), Fail> {
    put_count(out, row.outputs as usize)?;
    for amount in 0..row.outputs {
        out.extend_from_slice(&(amount + 1).to_le_bytes())?;
        put_run(out, 1, 0x51)?;
    }
    Ok(())
}

fn put_stacks(out: &mut Vec<u8>, row: &Built) -> Result<(), Fail> {
    for _ in 1..row.inputs {
        out.push(0)?;
    }
    put_count(out, row.items.len())?;
    for length in row.items {
        put_run(out, *length, 0xab)?;
    }
    Ok(())
}

/// The text of a row.
pub(super) fn text_of(alloc: Global, row: &Built) -> Result<Vec<u8>, Fail> {
    let segwit = !row.items.is_empty();
    let mut out = Vec::from_slice(alloc, [2, 0, 0, 0].as_slice())?;
    if segwit {
        out.extend_from_slice(&[0, 1])?;
    }
    put_inputs(&mut out, row)?;
    put_outputs(&mut out, row)?;
    if segwit {
        put_stacks(&mut out, row)?;
    }
    out.extend_from_slice(&[17, 0, 0, 0])?;
    Ok(out)
}
