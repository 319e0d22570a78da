//! What an accepted ticket shows that is not right.
ghost use Rattle.std.specs.Prelude.{◌≡◌, ◌∷◌, [], length, IfOk};
ghost use Rattle.forest_model.specs.Standing.{root};
ghost use Rattle.leaf_record.specs.History.{History};
ghost use Rattle.clash_find.specs.Answers.{StandForHistory};
ghost use Rattle.ticket_check.specs.Clashing.{IsTicketAnswer, ticket_clash_in};
ghost use Rattle.ticket_check.specs.Judging.{TicketAccepts};

use crate::TicketView;
use crate::target::{copies_of, target_at};
use bridge_prover::Bridge;
use clash_find::{Clash, find_in};
use leaf_record::{Record, RecordView};
use std::alloc::Global;
use std::sync::ledger::Ledger;
use uo_base::NoMemory;
use uo_digest::{Digester, Steps};

// The one leaf.
fn leaf_alone(alloc: Global, leaf: &RecordView<'_>) -> Result<Vec<Record>, NoMemory>
    ensures { IfOk result (λ leaves. leaves.items ≡ leaf.now ∷ []) }
{
    let mut leaves = Vec::with_capacity(alloc, 1)?;
    leaves.push(leaf.to_record(alloc)?)?;
    Ok(leaves)
}

/// Two different texts with one digest, where the roots of a bridge accept a ticket and it is not right: the first is that of a
/// node of the forest, and the second is one that the ticket's proof digests. Nothing where it is right.
pub fn ticket_clash<D: Digester, L: Ledger>(
    alloc: Global,
    bridge: &Bridge<D>,
    ticket: &TicketView<'_>,
    steps: &mut Steps<L>,
) -> Result<Option<Clash>, NoMemory>
    requires { TicketAccepts D.digest_of (length bridge.now.entries) (root D.digest_of bridge.now.entries) bridge.now.chain.tip ticket.now }
    ensures answer { IfOk result (λ clash. (us : History) → StandForHistory D.digest_of bridge.now.entries bridge.now.held us →
        IsTicketAnswer D.digest_of us bridge.now.chain.tip ticket.now clash) }

    // Which they are.
    ensures exact { IfOk result (λ clash. (us : History) → StandForHistory D.digest_of bridge.now.entries bridge.now.held us →
        clash ≡ ticket_clash_in D.digest_of us ticket.now) }
{
    let n = bridge.forest().leaves();
    let Some(targets) = target_at(alloc, n, ticket.target())? else {
        unreachable!()
    };
    let leaves = leaf_alone(alloc, &ticket.leaf())?;
    let hashes = copies_of(alloc, &ticket.hashes())?;
    find_in::<D, L>(
        alloc,
        bridge.forest(),
        bridge.outputs(),
        &targets,
        &leaves,
        &hashes,
        steps,
    )
}
