//! A digest as a value.
ghost use Rattle.std.specs.Prelude.{◌≡◌, length, IfNone};
ghost use Rattle.uo_base.specs.Reading.{Gives, Splits, Finds, Reads};
ghost use Rattle.uo_digest.specs.Reading.{IsDigest, digest_text, digest_in_front};

use uo_base::Cursor;

/// 32 bytes that stand for a text: a block hash, a transaction's id, a leaf or a node of the forest.
#[derive(Clone, Copy, Debug, PartialEq, Eq)]
pub struct Digest(pub [u8; 32]);

impl From<[u8; 32]> for Digest {
    ghost from_gives = { λ bytes digest. digest.0 ≡ bytes };

    fn from(bytes: [u8; 32]) -> Digest {
        Digest(bytes)
    }
}

impl Digest {
    /// The digest that 32 bytes are.
    pub fn from_bytes(bytes: &[u8]) -> Digest
        requires { length bytes.now ≡ 32 }
        ensures { result.0 ≡ bytes.now }
    {
        let mut digest = [0u8; 32];
        digest.copy_from_slice(bytes);
        Digest(digest)
    }

    /// The digest that the next 32 bytes are, in the order in which they are hashed and sent. `None` where fewer are left,
    /// and then none is read.
    pub fn read(at: &mut Cursor<'_>) -> Option<Digest>
        ensures reads { Reads (λ d. d) IsDigest digest_text result at.old at.new }
        ensures exact { Gives (λ d. d) result at.new (digest_in_front at.old) }
        ensures stays { IfNone result (at.new ≡ at.old) }
    {
        let (digest, rest) = front_digest(at.rest())?;
        *at = Cursor::new(rest);
        Some(digest)
    }
}

#[tactic(auto, unfolding(crate::specs::Reading::digest_in_front))]
fn split_digest(bytes: &[u8]) -> Option<(Digest, &[u8])>
    ensures { Splits (λ d. d) result (digest_in_front bytes.now) }
{
    if bytes.len() < 32 {
        return None;
    }
    let (front, rest) = bytes.split_at(32);
    Some((Digest::from_bytes(front), rest))
}

/// The same as `split_digest`, in terms of texts.
fn front_digest(bytes: &[u8]) -> Option<(Digest, &[u8])>
    ensures reads { Finds (λ d. d) IsDigest digest_text result bytes.now }
    ensures exact { Splits (λ d. d) result (digest_in_front bytes.now) }
{
    split_digest(bytes)
}
