//! SHA-256 of SHA-256 of a text that comes in pieces.
ghost use Rattle.std.specs.Prelude.{◌≡◌, ◌++◌, List, ℕ, []};
ghost use Rattle.sha2.specs.Sha256.{sha256};

use crate::Digest;
use sha2::Sha256;

/// What `sha256d` gives of a text, without the whole text at hand.
#[derive(Drop)]
pub struct Sha256dStream {
    hasher: Sha256,
}

impl Sha256dStream {
    ghost use Rattle.uo_digest.specs.Stream.{Holds};

    /// No text yet.
    pub fn new() -> Sha256dStream
        ensures { Holds result [] }
    {
        Sha256dStream {
            hasher: <Sha256 as sha2::Digest>::new(),
        }
    }

    /// The text grows by a piece.
    pub fn update(&mut self, piece: &[u8])
        ensures { (text : List ℕ) → Holds self.old text → Holds self.new (text ++ piece.now) }
    {
        sha2::Digest::update(&mut self.hasher, piece);
    }

    /// The digest of the text so far.
    pub fn finish(self) -> Digest
        ensures { (text : List ℕ) → Holds self text → result.0 ≡ sha256 (sha256 text) }
    {
        let first = sha2::Digest::finalize(self.hasher);
        Digest(<Sha256 as sha2::Digest>::digest(first.as_slice()))
    }
}
