//! Bytes as they are printed.
ghost use Rattle.std.specs.Prelude.{◌≡◌, Some};
ghost use Rattle.std.specs.Str.{IsAscii};
ghost use Rattle.hex.specs.Hex.{encode_lower};

use std::{fmt, str};
use uo_digest::{Digest, hex_reversed};

/// A block hash in hexadecimal, from its last byte to its first.
#[derive(Clone, Copy)]
pub struct HashText<'a>(pub &'a Digest);

impl fmt::Display for HashText<'_> {
    ghost use Rattle.report_lines.specs.Lines.{hash_text};

    ghost output = { λ hash. Some (hash_text hash.0.now) };

    fn fmt<W: fmt::Write>(&self, f: &mut fmt::Formatter<W>) -> fmt::Result {
        let digits = hex_reversed(self.0);
        f.write_str(ascii_text(&digits))
    }
}

/// Four bytes in hexadecimal, in their order.
#[derive(Clone, Copy)]
pub struct PlainText<'a>(pub &'a [u8; 4]);

impl fmt::Display for PlainText<'_> {
    ghost output = { λ bytes. Some (encode_lower bytes.0.now) };

    fn fmt<W: fmt::Write>(&self, f: &mut fmt::Formatter<W>) -> fmt::Result {
        let digits = plain_digits(self.0);
        f.write_str(ascii_text(&digits))
    }
}

fn plain_digits(bytes: &[u8; 4]) -> [u8; 8]
    ensures { result ≡ encode_lower bytes.now }
{
    let mut digits = [0u8; 8];
    let _ = hex::encode_to_slice(bytes.as_slice(), &mut digits);
    digits
}

fn ascii_text(digits: &[u8]) -> &str
    requires { IsAscii digits.now }
    ensures { result.now ≡ digits.now }
{
    match str::from_utf8(digits) {
        Ok(text) => text,
        Err(_) => unreachable!(),
    }
}
