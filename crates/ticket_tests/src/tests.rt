//! Tickets over three blocks and over roots. Their texts are those of a program in Python that was written from docs/FORMATS.md.
mod forged;
mod judged;
mod kept;
mod read;

use leaf_cache::Watch;
use std::alloc::Global;
use std::test::Fail;

/// Three blocks with a coinbase each, of which the last two add an output each.
const BLOCKS: [&str; 3] = [
    "0100000000000000000000000000000000000000000000000000000000000000000000005b2aaaebfd30c7a2b4f23b7e024fd0cf1be01e56fc46b39358a8b724\
    b8ed81e60000000000000000000000000101000000010000000000000000000000000000000000000000000000000000000000000000ffffffff0400000000ff\
    ffffff0100f2052a01000000015100000000",
    "010000005d1f208cb770b9cea3ac6509bad966689e74a97c51435bb9ede640cabbf6f3332a7d6a5ce258e9692bb459c6409fee2bdd16bd4c37f1ff1ac242d359\
    1d03764f0000000000000000000000000101000000010000000000000000000000000000000000000000000000000000000000000000ffffffff0401000000ff\
    ffffff0100f2052a01000000015100000000",
    "01000000a9ebbd3795610d483af663a66e5cc73440fe1a8e9aaf1d5902b99563a3a045b64b4eacdfc6d16a919f48681788a3156c46f9a445c1bc3a898f9cb9b6\
    72a5e6130000000000000000000000000101000000010000000000000000000000000000000000000000000000000000000000000000ffffffff0402000000ff\
    ffffff0100f2052a01000000015100000000",
];

/// How a ticket begins behind the block of height 1, and behind that of height 2.
const BEHIND_1: &str = "5554585401a9ebbd3795610d483af663a66e5cc73440fe1a8e9aaf1d5902b99563a3a045b6";

const BEHIND_2: &str = "5554585401c4016a647247fcff3fc531b516ce05fe3af059653e37c52e845a3c0cdf20cc82";

/// The place of the first output, and what it is; likewise of the second.
const FIRST: &str =
    "00000000000000002a7d6a5ce258e9692bb459c6409fee2bdd16bd4c37f1ff1ac242d3591d03764f00000000a9ebbd3795610d483af663a66e5cc73440fe1a8e\
    9aaf1d5902b99563a3a045b60300000000f2052a010000000151";

const SECOND: &str =
    "01000000000000004b4eacdfc6d16a919f48681788a3156c46f9a445c1bc3a898f9cb9b672a5e61300000000c4016a647247fcff3fc531b516ce05fe3af05965\
    3e37c52e845a3c0cdf20cc820500000000f2052a010000000151";

/// The bytes of pieces in hexadecimal.
fn bytes_of(alloc: Global, pieces: &[&'static str]) -> Result<Vec<u8>, Fail> {
    let mut bytes = Vec::new(alloc);
    for piece in pieces {
        bytes.extend_from_slice(&hex::decode(alloc, *piece)?)?;
    }
    Ok(bytes)
}

/// The one script of all outputs.
fn watch(alloc: Global) -> Result<Watch, Fail> {
    match Watch::from_list(alloc, b"51") {
        Ok(watch) => Ok(watch),
        Err(_) => Err("a list".into()),
    }
}
