//! An upgrade of one message.
ghost use Rattle.std.specs.Prelude.{◌≡◌, ◌<◌, ◌++◌, ◌^◌, [], map, IfOk, OnOk, OnErr};
ghost use Rattle.forest_place.specs.declared.naming.Naming.TheVariants.{Position};
ghost use Rattle.forest_place.specs.Named.{place_by};
ghost use Rattle.proof_wire.specs.BlockProof.{message_text};
ghost use Rattle.message_upgrade.specs.Upgrade.{fixed_number, renamed, in_version_2, is_old, upgraded, IsOldMessage};

use forest_place::{Naming, fixed_position, place_of};
use proof_wire::{Message, MessageFault, MessageView, read_message};
use std::alloc::Global;
use uo_base::NoMemory;

/// The number of no place.
const NO_PLACE: u64 = u64::MAX;

/// Appends the message that bytes are, in version 2: a target of version 1 becomes the fixed position of the place that it names in the
/// forest over `n` entries, or the greatest number where it names none. What is no message of version 1 is appended as it is. The answer is whether
/// it was one. Where there is no memory nothing is appended.
#[tactic(auto, unfolding(crate::specs::Upgrade::upgraded))]
pub fn upgrade(alloc: Global, n: u64, message: &[u8], out: &mut Vec<u8>) -> Result<bool, NoMemory>
    requires few { n < 2 ^ 40 }
    ensures old { IfOk result (λ old. old ≡ is_old message.now) }
    ensures text { OnOk result (out.new.items ≡ out.old.items ++ upgraded n message.now) }
    ensures stays { OnErr result (out.new.items ≡ out.old.items) }
{
    match old_message(alloc, message)? {
        Some(view) => {
            write_renamed(alloc, n, &view, out)?;
            Ok(true)
        }
        None => {
            out.extend_from_slice(message)?;
            Ok(false)
        }
    }
}

// The message of version 1 that bytes are, if they are one.
fn old_message<'a>(alloc: Global, message: &'a [u8]) -> Result<Option<MessageView<'a>>, NoMemory>
    ensures { IfOk result (λ found. IsOldMessage message.now found) }
{
    match read_message(alloc, message) {
        Ok(view) => match view.naming() {
            Naming::Position => Ok(Some(view)),
            Naming::FixedPosition => Ok(None),
        },
        Err(MessageFault::NotAMessage) => Ok(None),
        Err(MessageFault::Version(_)) => Ok(None),
        Err(MessageFault::NoMemory) => Err(NoMemory),
    }
}

// Appends the text of a message of version 1, in version 2.
fn write_renamed(
    alloc: Global,
    n: u64,
    view: &MessageView<'_>,
    out: &mut Vec<u8>,
) -> Result<(), NoMemory>
    requires few { n < 2 ^ 40 }
    ensures text { OnOk result (out.new.items ≡ out.old.items ++ message_text (in_version_2 n view.now)) }
    ensures stays { OnErr result (out.new.items ≡ out.old.items) }
{
    let mut message = Message::new(alloc, view.lean());
    push_renamed(n, view, &mut message)?;
    push_hashes(view, &mut message)?;
    message.write(out)
}

// Appends the spends of a message of version 1 to one that has none.
fn push_renamed(n: u64, view: &MessageView<'_>, message: &mut Message) -> Result<(), NoMemory>
    requires few { n < 2 ^ 40 }
    requires none { message.old.proof.spends ≡ [] }
    ensures { OnOk result (message.new ≡ record {
      naming = message.old.naming;
      lean = message.old.lean;
      proof =
          record { spends = map (renamed n) view.now.proof.spends; hashes = message.old.proof.hashes };
    }) }
{
    for i in 0..view.spends() {
        message.push_spend(number(n, view.target(i)), &view.rest(i))?;
    }
    Ok(())
}

// Appends the hashes of a message to one that has none.
fn push_hashes(view: &MessageView<'_>, message: &mut Message) -> Result<(), NoMemory>
    requires none { message.old.proof.hashes ≡ [] }
    ensures { OnOk result (message.new ≡ record {
      naming = message.old.naming;
      lean = message.old.lean;
      proof =
          record { spends = message.old.proof.spends; hashes = view.now.proof.hashes };
    }) }
{
    for i in 0..view.hash_count() {
        message.push_hash(view.hash(i))?;
    }
    Ok(())
}

// The fixed position of the place that a position names.
fn number(n: u64, position: u64) -> u64
    requires { n < 2 ^ 40 }
    ensures { result ≡ fixed_number (place_by Position n position) }
{
    match place_of(position, n) {
        Some(place) => fixed_position(place),
        None => NO_PLACE,
    }
}
