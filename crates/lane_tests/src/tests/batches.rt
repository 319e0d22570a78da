//! Pairs and texts together and each alone, in every count up to two groups of eight and one more.
ghost use Rattle.std.specs.Prelude.{◌≡◌, ◌<◌, ◌≤◌, length};

use crate::length_of;
use std::marker::Brand;
use std::process::Abort;
use std::sync::ledger::{Blank, Ledger};
use uo_digest::{
    Digest, Digester, Sha512t256, Steps, XorFold, sha256d, sha256d_all, sha256d_pairs,
};

const MOST: usize = 17;

fn pairs() -> [(Digest, Digest); MOST] {
    let mut pairs = [(Digest([0; 32]), Digest([0; 32])); MOST];
    for i in 0..MOST {
        pairs[i] = (Digest([i as u8; 32]), Digest([200 - i as u8; 32]));
    }
    pairs
}

fn pair_text(pair: &(Digest, Digest)) -> [u8; 64] {
    let mut text = [0u8; 64];
    text[..32].copy_from_slice(&pair.0.0);
    text[32..].copy_from_slice(&pair.1.0);
    text
}

// Texts that begin at different bytes, and have lengths that many, some or none have too.
fn texts(bytes: &[u8; 512], step: usize) -> [&[u8]; MOST]
    requires { step ≤ 400 }
{
    let mut texts = [bytes.as_slice(); MOST];
    for i in 0..MOST {
        texts[i] = &bytes[i..i + length_of(i, 40, step)];
    }
    texts
}

fn check_pairs<D: Digester, L: Ledger>(
    rt: &impl Abort,
    pairs: &[(Digest, Digest)],
    steps: &mut Steps<L>,
)
    requires { length pairs.now ≤ 17 }
{
    let mut all = [Digest([0; 32]); MOST];
    let out = &mut all[..pairs.len()];
    D::digest_pairs(pairs, out, steps);
    for (pair, digest) in pairs.iter().zip(out.iter()) {
        assert!(rt; *digest == D::digest(&pair_text(pair), steps));
    }
}

fn check_texts<D: Digester, L: Ledger>(
    rt: &impl Abort,
    front: &[u8],
    texts: &[&[u8]],
    steps: &mut Steps<L>,
)
    requires { length texts.now ≤ 17 }
{
    let mut all = [Digest([0; 32]); MOST];
    let out = &mut all[..texts.len()];
    let front = D::front(front);
    D::digest_each_behind(&front, texts, out, steps);
    for (text, digest) in texts.iter().zip(out.iter()) {
        assert!(rt; *digest == D::digest_behind(&front, *text, steps));
    }
}

fn check_digester<D: Digester, L: Ledger>(rt: &impl Abort, bytes: &[u8; 512], blank: Blank)
    requires name { blank.name ≡ L.name }
    requires parts { blank.parts ≡ L.parts }
    requires some { 0 < blank.parts }
{
    let mut steps = Steps::<L>::new(blank);
    let pairs = pairs();
    for count in 0..=MOST {
        check_pairs::<D, L>(rt, &pairs[..count], &mut steps);
        for step in [0, 17, 64, 130] {
            let texts = texts(bytes, step);
            check_texts::<D, L>(rt, &bytes[..100], &texts[..count], &mut steps);
            check_texts::<D, L>(rt, &bytes[..128], &texts[..count], &mut steps);
        }
    }
}

#[test]
fn digesters(rt: HostRuntime) {
    let bytes = super::bytes();
    check_digester::<Sha512t256, Brand>(&rt, &bytes, Blank::new(1));
    check_digester::<XorFold, Brand>(&rt, &bytes, Blank::new(1));
}

fn check_doubles(rt: &impl Abort, pairs: &[(Digest, Digest)], texts: &[&[u8]])
    requires pairs { length pairs.now ≤ 17 }
    requires texts { length texts.now ≤ 17 }
{
    let mut all = [Digest([0; 32]); MOST];
    let out = &mut all[..pairs.len()];
    sha256d_pairs(pairs, out);
    for (pair, digest) in pairs.iter().zip(out.iter()) {
        assert!(rt; *digest == sha256d(&pair_text(pair)));
    }
    let mut all = [Digest([0; 32]); MOST];
    let out = &mut all[..texts.len()];
    sha256d_all(texts, out);
    for (text, digest) in texts.iter().zip(out.iter()) {
        assert!(rt; *digest == sha256d(*text));
    }
}

#[test]
fn doubles(rt: HostRuntime) {
    let bytes = super::bytes();
    let pairs = pairs();
    for count in 0..=MOST {
        for step in [0, 17, 64, 130] {
            let texts = texts(&bytes, step);
            check_doubles(&rt, &pairs[..count], &texts[..count]);
        }
    }
}
