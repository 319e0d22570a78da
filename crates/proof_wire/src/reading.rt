//! Reading a message.
ghost use Rattle.std.specs.Prelude.{◌≡◌, ◌≢◌, ◌↔◌, ◌*◌, ◌/◌, ◌<◌, ◌∷◌, ℕ, Bool, [], Some, false, length, slice_get, IfSome, IfOk, IsErrOf};
ghost use Rattle.std.specs.Int.{w64};
ghost use Rattle.std.specs.List.{AllByRecursion};
ghost use Rattle.uo_base.specs.Reading.{Gives, GivesOrFails, number_at, times};
ghost use Rattle.uo_base.specs.Compact.{counted_at};
ghost use Rattle.uo_digest.specs.Reading.{digest_in_front, digests_in};
ghost use Rattle.forest_place.specs.declared.naming.Naming.{Naming as Named};
ghost use Rattle.forest_place.specs.Named.{version_of};
ghost use Rattle.leaf_record.specs.Reading.{rest_at};
ghost use Rattle.proof_wire.specs.BlockProof.{BlockProof, ProofMessage, ProofFits, MessageFits, kind_of, body_text, message_text};
ghost use Rattle.proof_wire.specs.Reading.{parts_at, whole_at, claims};
ghost use Rattle.proof_wire.specs.Views.{targets_in, rests_in, BeginsWithRest};

use crate::fault::MessageFault;
use crate::view::{BodyView, MessageView};
use forest_place::Naming;
use leaf_record::read_rest;
use std::alloc::Global;
use uo_base::Cursor;

/// The parts of this size behind their count.
#[tactic(auto, unfolding(crate::specs::Reading::parts_at))]
fn take_parts<'a>(at: &mut Cursor<'a>, size: u64) -> Option<&'a [u8]>
    requires { 0 < size }
    ensures { Gives (λ s. s.now) result at.new (parts_at size at.old) }
{
    let count = at.compact()?;
    if count > at.rest().len() as u64 / size {
        return None;
    }
    at.take((count * size) as usize)
}

fn read_targets<'a>(at: &mut Cursor<'a>) -> Option<&'a [u8]>
    ensures exact { Gives (λ s. targets_in s.now) result at.new (counted_at (number_at w64) at.old) }
    ensures even { IfSome result (λ s. 8 * (length s.now / 8) ≡ length s.now) }
{
    take_parts(at, 8)
}

fn read_hashes<'a>(at: &mut Cursor<'a>) -> Option<&'a [u8]>
    ensures exact { Gives (λ s. digests_in s.now) result at.new (counted_at digest_in_front at.old) }
    ensures even { IfSome result (λ s. 32 * (length s.now / 32) ≡ length s.now) }
{
    take_parts(at, 32)
}

/// Where each of this many rests begins.
fn read_starts<'a>(
    alloc: Global,
    at: &mut Cursor<'a>,
    count: u64,
) -> Result<Vec<&'a [u8]>, MessageFault>
    ensures exact { GivesOrFails (λ starts. rests_in starts.items) claims result at.new (times rest_at count at.old) }
    ensures begin { IfOk result (λ starts. AllByRecursion BeginsWithRest starts.items) }
{
    let mut starts = Vec::new(alloc);
    for _ in 0..count {
        let start = at.rest();
        match read_rest(at) {
            None => return Err(MessageFault::NotAMessage),
            Some(_) => starts.push(start)?,
        }
    }
    Ok(starts)
}

/// What follows version and kind.
#[tactic(auto, unfolding(crate::specs::Reading::whole_at, crate::specs::Reading::body_at))]
fn read_body<'a>(alloc: Global, body: &'a [u8]) -> Result<BodyView<'a>, MessageFault>
    ensures { GivesOrFails (λ m. m) claims result [] (whole_at body.now) }
{
    let mut at = Cursor::new(body);
    let Some(targets) = read_targets(&mut at) else {
        return Err(MessageFault::NotAMessage);
    };
    let rests = read_starts(alloc, &mut at, targets.len() as u64 / 8)?;
    let Some(hashes) = read_hashes(&mut at) else {
        return Err(MessageFault::NotAMessage);
    };
    if !at.rest().is_empty() {
        return Err(MessageFault::NotAMessage);
    }
    Ok(BodyView {
        targets,
        rests,
        hashes,
    })
}

/// The same, in terms of texts.
fn read_whole<'a>(alloc: Global, body: &'a [u8]) -> Result<BodyView<'a>, MessageFault>
    ensures found { IfOk result (λ m. ProofFits m × (body.now ≡ body_text m)) }
    ensures none { IsErrOf result MessageFault.NotAMessage → (p : BlockProof) → ProofFits p → body.now ≡ body_text p → ⊥ }
    ensures version { (v : ℕ) → IsErrOf result (MessageFault.Version v) → ⊥ }
{
    read_body(alloc, body)
}

/// The message that is full or lean, and has this body.
fn read_kind<'a>(
    alloc: Global,
    naming: Naming,
    lean: bool,
    body: &'a [u8],
) -> Result<MessageView<'a>, MessageFault>
    ensures found { IfOk result (λ m. (m.naming ≡ naming) × (m.lean ≡ lean) × ProofFits m.proof × (body.now ≡ body_text m.proof)) }
    ensures none { IsErrOf result MessageFault.NotAMessage → (p : BlockProof) → ProofFits p → body.now ≡ body_text p → ⊥ }
    ensures version { (v : ℕ) → IsErrOf result (MessageFault.Version v) → ⊥ }
{
    match read_whole(alloc, body) {
        Ok(body) => Ok(MessageView { naming, lean, body }),
        Err(fault) => Err(fault),
    }
}

/// The message that has this kind and body, and names places so.
fn read_behind<'a>(
    alloc: Global,
    naming: Naming,
    text: &'a [u8],
) -> Result<MessageView<'a>, MessageFault>
    ensures found { IfOk result (λ m. (m.naming ≡ naming) × ProofFits m.proof × (text.now ≡ kind_of m.lean ∷ body_text m.proof)) }
    ensures none { IsErrOf result MessageFault.NotAMessage → (lean : Bool) (p : BlockProof) → ProofFits p → text.now ≡ kind_of lean ∷ body_text p
        → ⊥ }
    ensures version { (v : ℕ) → IsErrOf result (MessageFault.Version v) → ⊥ }
{
    match text {
        [0, body @ ..] => read_kind(alloc, naming, false, body),
        [1, body @ ..] => read_kind(alloc, naming, true, body),
        _ => Err(MessageFault::NotAMessage),
    }
}

/// The message that the whole text is: the version (1 or 2), the kind (0, or 1 where it is lean), a count and the targets of
/// the spends (8 bytes each), their rests, and a count and the hashes (32 bytes each).
pub fn read_message<'a>(alloc: Global, text: &'a [u8]) -> Result<MessageView<'a>, MessageFault>
    ensures found { IfOk result (λ m. MessageFits m × (text.now ≡ message_text m)) }
    ensures none { IsErrOf result MessageFault.NotAMessage → (m : ProofMessage) → MessageFits m → text.now ≡ message_text m → ⊥ }
    ensures version { (v : ℕ) → IsErrOf result (MessageFault.Version v) ↔ ((slice_get text.now 0 ≡ Some v) × ((by : Named) → v ≢ version_of by)) }
{
    match text {
        [] => Err(MessageFault::NotAMessage),
        [version, behind @ ..] => match Naming::of_version(*version) {
            Some(naming) => read_behind(alloc, naming, behind),
            None => Err(MessageFault::Version(*version)),
        },
    }
}
