//! Each text alone and beside others.
ghost use Rattle.std.specs.Prelude.{◌≤◌};

mod batches;

use crate::length_of;
use digest_lanes::{
    Front, double_pairs_of_eight, pair_alone, pairs_of_four, pairs_of_two, sha256d_each,
};
use sha2::{Digest, Sha256, Sha512_256};
use std::alloc::{AllocError, Global};
use std::process::Abort;
use std::test::Fail;

/// SHA-512/256 of `abc`, and of a text of two blocks.
const SHORT_512: [u8; 32] = [
    0x53, 0x04, 0x8e, 0x26, 0x81, 0x94, 0x1e, 0xf9, 0x9b, 0x2e, 0x29, 0xb7, 0x6b, 0x4c, 0x7d, 0xab,
    0xe4, 0xc2, 0xd0, 0xc6, 0x34, 0xfc, 0x6d, 0x46, 0xe0, 0xe2, 0xf1, 0x31, 0x07, 0xe7, 0xaf, 0x23,
];

const LONG_512: [u8; 32] = [
    0x39, 0x28, 0xe1, 0x84, 0xfb, 0x86, 0x90, 0xf8, 0x40, 0xda, 0x39, 0x88, 0x12, 0x1d, 0x31, 0xbe,
    0x65, 0xcb, 0x9d, 0x3e, 0xf8, 0x3e, 0xe6, 0x14, 0x6f, 0xea, 0xc8, 0x61, 0xe1, 0x9b, 0x56, 0x3a,
];

/// SHA-256 of `abc`, and of a text of two blocks.
const SHORT_256: [u8; 32] = [
    0xba, 0x78, 0x16, 0xbf, 0x8f, 0x01, 0xcf, 0xea, 0x41, 0x41, 0x40, 0xde, 0x5d, 0xae, 0x22, 0x23,
    0xb0, 0x03, 0x61, 0xa3, 0x96, 0x17, 0x7a, 0x9c, 0xb4, 0x10, 0xff, 0x61, 0xf2, 0x00, 0x15, 0xad,
];

const LONG_256: [u8; 32] = [
    0x24, 0x8d, 0x6a, 0x61, 0xd2, 0x06, 0x38, 0xb8, 0xe5, 0xc0, 0x26, 0x93, 0x0c, 0x3e, 0x60, 0x39,
    0xa3, 0x3c, 0xe4, 0x59, 0x64, 0xff, 0x21, 0x67, 0xf6, 0xec, 0xed, 0xd4, 0x19, 0xdb, 0x06, 0xc1,
];

fn bytes() -> [u8; 512] {
    let mut bytes = [0u8; 512];
    for i in 0..512 {
        bytes[i] = (i * 167 % 251) as u8;
    }
    bytes
}

// So many texts that begin at different bytes.
fn texts(
    alloc: Global,
    bytes: &[u8; 512],
    count: usize,
    len: usize,
    step: usize,
) -> Result<Vec<&[u8]>, AllocError>
    requires count { count ≤ 18 }
    requires len { len ≤ 400 }
    requires step { step ≤ 400 }
{
    let mut texts = Vec::new(alloc);
    for i in 0..count {
        texts.push(&bytes[i..i + length_of(i, len, step)])?;
    }
    Ok(texts)
}

// Each text beside the others, behind a front, and alone.
fn compare(
    rt: &impl Abort,
    alloc: Global,
    front: &[u8],
    texts: &[&[u8]],
) -> Result<(), AllocError> {
    let mut out = vec![in alloc; [0u8; 32]; texts.len()]?;
    Front::new(front).digest_each(texts, &mut out);
    for (text, digest) in texts.iter().zip(out.iter()) {
        let mut alone = Sha512_256::new_with_prefix(front);
        alone.update(*text);
        assert!(rt; *digest == alone.finalize());
    }
    sha256d_each(texts, &mut out);
    for (text, digest) in texts.iter().zip(out.iter()) {
        let first = Sha256::digest(*text);
        assert!(rt; *digest == Sha256::digest(first.as_slice()));
    }
    Ok(())
}

// Nine texts of each length: a group of each function, and one text more.
#[test]
fn every_length(rt: HostRuntime) -> Result<(), Fail> {
    let bytes = bytes();
    for len in 0..401 {
        let texts = texts(rt.alloc(), &bytes, 9, len, 0).ok().ok_or("memory")?;
        let front = &bytes[..[0, 128, 100][len % 3]];
        compare(&rt, rt.alloc(), front, &texts)
            .ok()
            .ok_or("memory")?;
    }
    Ok(())
}

// So many texts of unlike lengths, of which some have equally many blocks.
#[test]
fn every_count(rt: HostRuntime) -> Result<(), Fail> {
    let bytes = bytes();
    for count in 0..18 {
        for step in [1, 17, 64, 130] {
            let texts = texts(rt.alloc(), &bytes, count, 40, step)
                .ok()
                .ok_or("memory")?;
            compare(&rt, rt.alloc(), &bytes[..128], &texts)
                .ok()
                .ok_or("memory")?;
        }
    }
    Ok(())
}

// The examples of the standard in all lanes.
#[test]
fn examples_of_the_standard(rt: HostRuntime) {
    let mut out = [[0u8; 32]; 8];
    let front = Front::new(b"");
    front.digest_each(&[b"abc".as_slice(); 8], &mut out);
    assert!(rt; out == [SHORT_512; 8]);
    let long =
        b"abcdefghbcdefghicdefghijdefghijkefghijklfghijklmghijklmnhijklmnoijklmnopjklmnopqklmnopqrlmnopqrsmnopqrstnopqrstu";
    front.digest_each(&[long.as_slice(); 8], &mut out);
    assert!(rt; out == [LONG_512; 8]);
    sha256d_each(&[b"abc".as_slice(); 8], &mut out);
    assert!(rt; out == [Sha256::digest(SHORT_256.as_slice()); 8]);
    let long = b"abcdbcdecdefdefgefghfghighijhijkijkljklmklmnlmnomnopnopq";
    sha256d_each(&[long.as_slice(); 8], &mut out);
    assert!(rt; out == [Sha256::digest(LONG_256.as_slice()); 8]);
}

// Pairs of digests that all differ.
#[test]
fn pairs(rt: HostRuntime) {
    let left = [
        [1u8; 32], [2; 32], [3; 32], [4; 32], [5; 32], [6; 32], [7; 32], [8; 32],
    ];
    let right = [
        [9u8; 32], [10; 32], [11; 32], [12; 32], [13; 32], [14; 32], [15; 32], [16; 32],
    ];
    let doubles = double_pairs_of_eight(&left, &right);
    let near = [left[0], left[1], left[2], left[3]];
    let far = [right[0], right[1], right[2], right[3]];
    let four = pairs_of_four(&near, &far);
    let two = pairs_of_two(&[left[0], left[1]], &[right[0], right[1]]);
    for j in 0..8 {
        let mut text = [0u8; 64];
        text[..32].copy_from_slice(&left[j]);
        text[32..].copy_from_slice(&right[j]);
        let first = Sha256::digest(text.as_slice());
        assert!(rt; doubles[j] == Sha256::digest(first.as_slice()));
        assert!(rt; pair_alone(&left[j], &right[j]) == Sha512_256::digest(text.as_slice()));
        if j < 4 {
            assert!(rt; four[j] == Sha512_256::digest(text.as_slice()));
        }
        if j < 2 {
            assert!(rt; two[j] == four[j]);
        }
    }
}
