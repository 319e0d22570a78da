//! A message as it lies in its source.
ghost use Rattle.std.specs.Prelude.{◌≡◌, ◌+◌, ◌*◌, ◌<◌, ◌≤◌, length, take, drop, slice_get, Some};
ghost use Rattle.std.specs.Int.{w64, from_le_bytes};
ghost use Rattle.forest_place.specs.Named.{version_of};
ghost use Rattle.proof_wire.specs.BlockProof.{targets_of, rests_of};

use forest_place::Naming;
use leaf_record::{RestView, read_rest};
use std::marker::Model;
use uo_base::Cursor;
use uo_digest::{Digest, Digests};

/// The i-th of parts of one size.
fn part(parts: &[u8], size: usize, i: usize) -> &[u8]
    requires { size * i + size ≤ length parts.now }
    ensures part { result.now ≡ take size (drop (size * i) parts.now) }
    ensures len { length result.now ≡ size }
{
    let from = size * i;
    &parts[from..from + size]
}

fn number(bytes: &[u8]) -> u64
    requires { length bytes.now ≡ 8 }
    ensures { result ≡ from_le_bytes w64 bytes.now }
{
    u64::from_le_bytes([
        bytes[0], bytes[1], bytes[2], bytes[3], bytes[4], bytes[5], bytes[6], bytes[7],
    ])
}

/// What follows version and kind, without a copy of its parts.
#[derive(Drop)]
pub(crate) struct BodyView<'a> {
    pub targets: &'a [u8],
    pub rests: Vec<&'a [u8]>,
    pub hashes: &'a [u8],
}

impl<'a> Model for BodyView<'a> {
    ghost use Rattle.proof_wire.specs.BlockProof.{BlockProof};

    ghost Value = { BlockProof };

    ghost use Rattle.proof_wire.specs.Views.{proof_in, IsMessageView};

    ghost view = { λ s. proof_in s.targets.now s.rests.items s.hashes.now };

    ghost invariant = { λ s. IsMessageView s.targets.now s.rests.items s.hashes.now };
}

impl<'a> BodyView<'a> {
    fn spends(&self) -> u64
        ensures { result ≡ length self.now.spends }
    {
        self.rests.len() as u64
    }

    fn target(&self, i: u64) -> u64
        requires { i < length self.now.spends }
        ensures { slice_get (targets_of self.now.spends) i ≡ Some result }
    {
        number(part(self.targets, 8, i as usize))
    }

    fn rest(&self, i: u64) -> RestView<'a>
        requires { i < length self.now.spends }
        ensures { slice_get (rests_of self.now.spends) i ≡ Some result }
    {
        let mut at = Cursor::new(self.rests[i as usize]);
        match read_rest(&mut at) {
            Some(rest) => rest,
            None => unreachable!(),
        }
    }

    fn hashes(&self) -> Digests<'a>
        ensures { result ≡ self.now.hashes }
    {
        Digests::new(self.hashes)
    }
}

/// A message that holds no copy of its parts, but knows where each rest begins; contracts see what
/// it says.
#[derive(Drop)]
pub struct MessageView<'a> {
    pub(crate) naming: Naming,
    pub(crate) lean: bool,
    pub(crate) body: BodyView<'a>,
}

impl<'a> Model for MessageView<'a> {
    ghost use Rattle.proof_wire.specs.BlockProof.{ProofMessage};

    ghost Value = { ProofMessage };

    ghost view = { λ s. record { naming = s.naming; lean = s.lean; proof = s.body } };
}

impl<'a> MessageView<'a> {
    /// How its targets name places, which its version tells.
    pub fn naming(&self) -> Naming
        ensures { result ≡ self.now.naming }
    {
        self.naming
    }

    /// In which version it is written.
    pub fn version(&self) -> u8
        ensures { result ≡ version_of self.now.naming }
    {
        self.naming.version()
    }

    /// Whether the hashes that its reader knows are left out.
    pub fn lean(&self) -> bool
        ensures { result ≡ self.now.lean }
    {
        self.lean
    }

    /// How many outputs are spent.
    pub fn spends(&self) -> u64
        ensures { result ≡ length self.now.proof.spends }
    {
        self.body.spends()
    }

    /// The number of the place of a spent output's leaf in the forest before the block: its position in version 1, its fixed
    /// position in version 2.
    pub fn target(&self, i: u64) -> u64
        requires { i < length self.now.proof.spends }
        ensures { slice_get (targets_of self.now.proof.spends) i ≡ Some result }
    {
        self.body.target(i)
    }

    /// What the message shows of a spent output.
    pub fn rest(&self, i: u64) -> RestView<'a>
        requires { i < length self.now.proof.spends }
        ensures { slice_get (rests_of self.now.proof.spends) i ≡ Some result }
    {
        self.body.rest(i)
    }

    /// How many hashes there are besides.
    pub fn hash_count(&self) -> u64
        ensures { result ≡ length self.now.proof.hashes }
    {
        self.body.hashes().len() as u64
    }

    /// A hash, in the order of positions.
    pub fn hash(&self, i: u64) -> Digest
        requires { i < length self.now.proof.hashes }
        ensures { slice_get self.now.proof.hashes i ≡ Some result }
    {
        self.body.hashes().get(i as usize)
    }
}
