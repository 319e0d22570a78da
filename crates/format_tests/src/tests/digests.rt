//! Published digests, and digests computed by hand.
ghost use Rattle.std.specs.Prelude.{◌≡◌, ◌<◌};

use std::marker::Brand;
use std::process::Abort;
use std::sync::ledger::{Blank, Ledger};
use std::test::Fail;
use uo_base::Cursor;
use uo_digest::{
    Digest, Digester, Sha256dStream, Sha512t256, Steps, XorFold, hex_plain, hex_reversed, sha256d,
};

/// A text and its digest in plain order.
struct Vector {
    text: &'static [u8],
    digest: &'static [u8; 64],
}

/// The examples of FIPS 180-4 for SHA-512/256, of one block and of none.
const SHA512_256: [Vector; 2] = [
    Vector {
        text: b"abc",
        digest: b"53048e2681941ef99b2e29b76b4c7dabe4c2d0c634fc6d46e0e2f13107e7af23",
    },
    Vector {
        text: b"",
        digest: b"c672b8d1ef56ed28ab87c3622c5114069bdd3ad7b8f9737498d0c01ecef0967a",
    },
];

/// SHA-256 of SHA-256: the published digest of `hello`, and of nothing.
const SHA256D: [Vector; 2] = [
    Vector {
        text: b"hello",
        digest: b"9595c9df90075148eb06860365df33584b75bff782a510c6cd4883a419833d50",
    },
    Vector {
        text: b"",
        digest: b"5df6e0e2761359d30a8275058e299fcc0381534545f55cf43e41983f5d4c9456",
    },
];

/// Byte 32 meets byte 0, and byte 33 byte 1.
const XOR_FOLD: [Vector; 2] = [
    Vector {
        text: b"\x01\x02\x04\x00\x00\x00\x00\x00\x00\x00\x00\x00\x00\x00\x00\x00\
            \x00\x00\x00\x00\x00\x00\x00\x00\x00\x00\x00\x00\x00\x00\x00\x08\
            \x03\x10",
        digest: b"0212040000000000000000000000000000000000000000000000000000000008",
    },
    Vector {
        text: b"",
        digest: b"0000000000000000000000000000000000000000000000000000000000000000",
    },
];

fn check_digester<D: Digester, L: Ledger>(rt: &impl Abort, vectors: &[Vector], blank: Blank)
    requires name { blank.name ≡ L.name }
    requires parts { blank.parts ≡ L.parts }
    requires some { 0 < blank.parts }
{
    let mut steps = Steps::<L>::new(blank);
    for vector in vectors {
        let digest = D::digest(vector.text, &mut steps);
        assert!(rt; hex_plain(&digest).as_slice() == vector.digest.as_slice());
        // The same behind each front of the text.
        for cut in 0..=vector.text.len() {
            let front = D::front(&vector.text[..cut]);
            assert!(rt; D::digest_behind(&front, &vector.text[cut..], &mut steps) == digest);
        }
    }
}

#[test]
fn digesters(rt: HostRuntime) {
    check_digester::<Sha512t256, Brand>(&rt, &SHA512_256, Blank::new(1));
    check_digester::<XorFold, Brand>(&rt, &XOR_FOLD, Blank::new(1));
}

#[test]
fn sha256d_whole_and_in_pieces(rt: HostRuntime) {
    for vector in &SHA256D {
        let digest = sha256d(vector.text);
        assert!(rt; hex_plain(&digest).as_slice() == vector.digest.as_slice());
        let mut stream = Sha256dStream::new();
        for piece in vector.text.chunks(2) {
            stream.update(piece);
        }
        assert!(rt; stream.finish() == digest);
    }
}

#[test]
fn reversed_hex(rt: HostRuntime) {
    let mut bytes = [0u8; 32];
    bytes[0] = 0x6f;
    bytes[31] = 0xe2;
    let text = hex_reversed(&Digest::from_bytes(bytes.as_slice()));
    assert!(rt;
        text.as_slice()
            == b"e20000000000000000000000000000000000000000000000000000000000006f".as_slice()
    );
}

#[test]
fn read_from_the_front(rt: HostRuntime) {
    let text = b"abcdefghijklmnopqrstuvwxyz0123456789";
    let mut at = Cursor::new(text);
    assert!(rt; Digest::read(&mut at) == Some(Digest(*b"abcdefghijklmnopqrstuvwxyz012345")));
    assert!(rt; at.rest() == b"6789".as_slice());
    assert!(rt; Digest::read(&mut at).is_none());
    assert!(rt; at.rest() == b"6789".as_slice());
}
