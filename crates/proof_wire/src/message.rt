//! Making a message.
ghost use Rattle.std.specs.Prelude.{◌≡◌, ◌<◌, ◌^◌, ◌∷◌, ◌++◌, [], length, OnOk, OnErr};
ghost use Rattle.std.specs.Int.{w64, to_le_bytes};
ghost use Rattle.std.specs.List.{AllByRecursion};
ghost use Rattle.uo_base.specs.Moved.{Grew};
ghost use Rattle.uo_base.specs.Reading.{OneReading};
ghost use Rattle.uo_base.specs.Compact.{counted};
ghost use Rattle.uo_digest.specs.Reading.{IsDigest, digest_text};
ghost use Rattle.forest_place.specs.Named.{version_of};
ghost use Rattle.forest_place.specs.declared.naming.Naming.TheVariants.{FixedPosition};
ghost use Rattle.proof_wire.specs.BlockProof.{MessageFits, kind_of, message_text, spends_of};

use crate::Rests;
use forest_place::Naming;
use leaf_record::{RestView, write_rest};
use std::alloc::Global;
use std::marker::Model;
use uo_base::{NoMemory, put_compact};
use uo_digest::Digest;

/// A message of version 2 that is made spend by spend and hash by hash; contracts see what it says.
#[derive(Debug, Drop)]
pub struct Message {
    lean: bool,
    targets: Vec<u64>,
    // The text of the rest at each target, one behind the other.
    rests: Vec<u8>,
    hashes: Vec<Digest>,
}

impl Model for Message {
    ghost use Rattle.forest_place.specs.declared.naming.Naming.TheVariants.{FixedPosition};
    ghost use Rattle.proof_wire.specs.BlockProof.{ProofMessage};
    ghost use Rattle.proof_wire.specs.Making.{proof_made, IsMade};

    ghost Value = { ProofMessage };

    ghost view = { λ m. record { naming = FixedPosition; lean = m.lean; proof = proof_made m.targets.items m.rests.items m.hashes.items } };

    ghost invariant = { λ m. IsMade m.targets.items m.rests.items m.hashes.items };
}

impl Message {
    /// No spend and no hash, in a message that is full or lean.
    pub fn new(alloc: Global, lean: bool) -> Message
        ensures { result ≡ record { naming = FixedPosition; lean = lean; proof = record { spends = []; hashes = [] } } }
    {
        Message {
            lean,
            targets: Vec::new(alloc),
            rests: Vec::new(alloc),
            hashes: Vec::new(alloc),
        }
    }

    /// The message of the spends with these fixed positions and rests, in the same order, and with these hashes. Takes no memory.
    pub fn of(lean: bool, targets: Vec<u64>, rests: Rests, hashes: Vec<Digest>) -> Message
        requires same { length targets.items ≡ length rests }
        // That an array has its length is known of a value, but not of those in a `Vec`.
        requires fit { AllByRecursion IsDigest hashes.items }
        ensures { result ≡ record {
          naming = FixedPosition;
          lean = lean;
          proof =
              record { spends = spends_of targets.items rests; hashes = hashes.items };
        } }
    {
        Message {
            lean,
            targets,
            rests: rests.text,
            hashes,
        }
    }

    /// One more spend: the fixed position of its leaf's place in the forest before the block, and its rest.
    pub fn push_spend(&mut self, target: u64, rest: &RestView<'_>) -> Result<(), NoMemory>
        ensures ok { OnOk result (self.new ≡ record {
          naming = self.old.naming;
          lean = self.old.lean;
          proof =
              record { spends = self.old.proof.spends ++ record { target = target; rest = rest.now } ∷ []; hashes = self.old.proof.hashes };
        }) }
        ensures err { OnErr result (self.new ≡ self.old) }
    {
        let start = self.rests.len();
        write_rest(rest, &mut self.rests)?;
        match self.targets.push(target) {
            Ok(()) => Ok(()),
            Err(_) => {
                self.rests.truncate(start);
                Err(NoMemory)
            }
        }
    }

    /// One more hash.
    pub fn push_hash(&mut self, hash: Digest) -> Result<(), NoMemory>
        ensures ok { OnOk result (self.new ≡ record {
          naming = self.old.naming;
          lean = self.old.lean;
          proof =
              record { spends = self.old.proof.spends; hashes = self.old.proof.hashes ++ hash ∷ [] };
        }) }
        ensures err { OnErr result (self.new ≡ self.old) }
    {
        self.hashes.push(hash)?;
        Ok(())
    }

    fn put(&self, out: &mut Vec<u8>) -> Result<(), NoMemory>
        ensures ok { OnOk result (out.new.items ≡ out.old.items ++ message_text self.now) }
        ensures err { OnErr result (Grew out.old.items out.new.items) }
        ensures fits { MessageFits self.now }
        ensures version { version_of self.now.naming ≡ 2 }
    {
        put_parts(self.lean, &self.targets, &self.rests, &self.hashes, out)
    }

    /// Appends the one text of the message, in version 2. Memory is asked for once at most. Where there is none, the text before it stays as it was.
    pub fn write(&self, out: &mut Vec<u8>) -> Result<(), NoMemory>
        ensures ok { OnOk result (out.new.items ≡ out.old.items ++ message_text self.now) }
        ensures err { OnErr result (out.new.items ≡ out.old.items) }
        // What was written is a message, so it is read again.
        ensures fits { MessageFits self.now }
        ensures version { version_of self.now.naming ≡ 2 }
    {
        let start = out.len();
        match self.put(out) {
            Ok(()) => Ok(()),
            Err(NoMemory) => {
                out.truncate(start);
                Err(NoMemory)
            }
        }
    }
}

/// Room for version and kind, and for two counts in their longest form.
const FIXED_ROOM: usize = 2 + 2 * 9;

// For how many bytes room is taken at once: all that the text has, and at most 16 more. A sum that is too large stays the
// largest number, for which there is no memory.
fn room_for(targets: usize, rests: usize, hashes: usize) -> usize {
    let targets = targets.saturating_mul(8);
    let hashes = hashes.saturating_mul(32);
    rests
        .saturating_add(targets)
        .saturating_add(hashes)
        .saturating_add(FIXED_ROOM)
}

/// The second byte of a message.
fn kind_byte(lean: bool) -> u8
    ensures { result ≡ kind_of lean }
{
    match lean {
        false => 0,
        true => 1,
    }
}

// The text, with the rests as they were spelled.
fn put_parts(
    lean: bool,
    targets: &[u64],
    rests: &[u8],
    hashes: &[Digest],
    out: &mut Vec<u8>,
) -> Result<(), NoMemory>
    ensures ok { OnOk result (out.new.items ≡ out.old.items ++ version_of FixedPosition ∷ kind_of lean
        ∷ (counted (to_le_bytes w64) targets.now ++ rests.now ++ counted digest_text hashes.now)) }
    ensures err { OnErr result (Grew out.old.items out.new.items) }
    ensures few { (length targets.now < 2 ^ 64) × (length hashes.now < 2 ^ 64) }
{
    out.reserve(room_for(targets.len(), rests.len(), hashes.len()))?;
    out.extend_from_slice(&[Naming::FixedPosition.version(), kind_byte(lean)])?;
    put_targets(targets, out)?;
    out.extend_from_slice(rests)?;
    put_hashes(hashes, out)
}

fn put_targets(targets: &[u64], out: &mut Vec<u8>) -> Result<(), NoMemory>
    ensures ok { OnOk result (out.new.items ≡ out.old.items ++ counted (to_le_bytes w64) targets.now) }
    ensures err { OnErr result (Grew out.old.items out.new.items) }
{
    put_compact(out, targets.len() as u64)?;
    for target in targets {
        out.extend_from_slice(&target.to_le_bytes())?;
    }
    Ok(())
}

fn put_hashes(hashes: &[Digest], out: &mut Vec<u8>) -> Result<(), NoMemory>
    ensures ok { OnOk result (out.new.items ≡ out.old.items ++ counted digest_text hashes.now) }
    ensures err { OnErr result (Grew out.old.items out.new.items) }
{
    put_compact(out, hashes.len() as u64)?;
    for hash in hashes {
        out.extend_from_slice(&hash.0)?;
    }
    Ok(())
}

/// No message's text is the front of another's, so a message that was written is read again.
pub fn one_message()
    ensures { OneReading MessageFits message_text }
{}
