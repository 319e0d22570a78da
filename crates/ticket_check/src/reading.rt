//! Reading a ticket.
ghost use Rattle.std.specs.Prelude.{◌≡◌, ◌↔◌, ◌∷◌, ◌*◌, ◌/◌, ◌<◌, ℕ, List, length, IfSome, IfOk, IsErrOf, MatchOption};
ghost use Rattle.uo_base.specs.Reading.{Gives};
ghost use Rattle.uo_base.specs.Compact.{counted_at};
ghost use Rattle.uo_digest.specs.Reading.{digest_in_front, digests_in};
ghost use Rattle.proof_wire.specs.Reading.{parts_at};
ghost use Rattle.ticket_check.specs.Tickets.{Ticket, TicketFits, IsOfVersion, ticket_body_text, ticket_text};
ghost use Rattle.ticket_check.specs.Reading.{ticket_body_at, AreWholeDigests, IsWhole, ticket_in};

use crate::fault::TicketFault;
use crate::view::TicketView;
use leaf_record::read_rest;
use state_text::split_version;
use uo_base::Cursor;
use uo_digest::Digest;

// Parts of 32 bytes behind their count.
#[tactic(auto, unfolding(proof_wire::specs::Reading::parts_at))]
fn take_parts<'a>(at: &mut Cursor<'a>) -> Option<&'a [u8]>
    ensures { Gives (λ s. s.now) result at.new (parts_at 32 at.old) }
{
    let count = at.compact()?;
    if count > at.rest().len() as u64 / 32 {
        return None;
    }
    at.take((count * 32) as usize)
}

fn read_hashes<'a>(at: &mut Cursor<'a>) -> Option<&'a [u8]>
    ensures exact { Gives (λ s. digests_in s.now) result at.new (counted_at digest_in_front at.old) }
    ensures even { IfSome result (λ s. AreWholeDigests s.now) }
{
    take_parts(at)
}

#[tactic(auto, unfolding(crate::specs::Reading::ticket_body_at))]
fn read_parts<'a>(at: &mut Cursor<'a>) -> Option<TicketView<'a>>
    ensures { Gives (λ k. k) result at.new (ticket_body_at at.old) }
{
    let tip = Digest::read(at)?;
    let target = at.u64()?;
    let txid = Digest::read(at)?;
    let index = at.u32()?;
    let rest = read_rest(at)?;
    let hashes = read_hashes(at)?;
    Some(TicketView {
        tip,
        target,
        leaf: rest.with_outpoint(txid, index),
        hashes,
    })
}

// What follows the version, and nothing behind it.
fn read_whole<'a>(body: &'a [u8]) -> Option<TicketView<'a>>
    ensures { IsWhole result body.now }
{
    let mut at = Cursor::new(body);
    let ticket = read_parts(&mut at)?;
    if at.rest().is_empty() {
        Some(ticket)
    } else {
        None
    }
}

// The same, in terms of texts.
fn read_body<'a>(body: &'a [u8]) -> Option<TicketView<'a>>
    ensures { MatchOption result
        ((k : Ticket) → TicketFits k → body.now ≡ ticket_body_text k → ⊥)
        (λ k. TicketFits k × (body.now ≡ ticket_body_text k)) }
{
    read_whole(body)
}

// The ticket that the whole text is, or why it is none, in terms of texts.
fn read_text<'a>(text: &'a [u8]) -> Result<TicketView<'a>, TicketFault>
    ensures found { IfOk result (λ k. TicketFits k × (text.now ≡ ticket_text k)) }
    ensures none { IsErrOf result TicketFault.NotATicket → (k : Ticket) → TicketFits k → text.now ≡ ticket_text k → ⊥ }
    ensures version { (v : ℕ) → IsErrOf result (TicketFault.Version v) ↔ IsOfVersion v text.now }
{
    let Some((version, body)) = split_version(b"UTXT", text) else {
        return Err(TicketFault::NotATicket);
    };
    if version != 1 {
        return Err(TicketFault::Version(version));
    }
    match read_body(body) {
        Some(ticket) => Ok(ticket),
        None => Err(TicketFault::NotATicket),
    }
}

/// The ticket that the whole text is. It takes no memory.
pub fn read_ticket<'a>(text: &'a [u8]) -> Result<TicketView<'a>, TicketFault>
    ensures found { IfOk result (λ k. TicketFits k × (text.now ≡ ticket_text k)) }
    ensures none { IsErrOf result TicketFault.NotATicket → (k : Ticket) → TicketFits k → text.now ≡ ticket_text k → ⊥ }
    ensures version { (v : ℕ) → IsErrOf result (TicketFault.Version v) ↔ IsOfVersion v text.now }
    ensures exact { result ≡ ticket_in text.now }
{
    read_text(text)
}
