//! The leaves that a message claims.
ghost use Rattle.std.specs.Prelude.{◌≡◌, ◌<◌, length, slice_get, Some};
ghost use Rattle.proof_wire.specs.BlockProof.{rests_of};
ghost use Rattle.node_rules.specs.Messages.{points_of, claimed};

use block_rules::Outside;
use leaf_record::{Leaves, RecordView};
use proof_wire::MessageView;
use std::marker::Model;

/// The leaves that a message claims of a block's external inputs: each rest that it shows, with the name of its input's output. Contracts see their
/// list.
#[derive(Drop)]
pub struct MessageLeaves<'s, 'm> {
    external: &'s [Outside],
    message: &'s MessageView<'m>,
}

impl<'s, 'm> Model for MessageLeaves<'s, 'm> {
    ghost use Rattle.std.specs.Prelude.{◌≡◌, List, length};
    ghost use Rattle.leaf_record.specs.Leaf.{Leaf};
    ghost use Rattle.proof_wire.specs.BlockProof.{rests_of};
    ghost use Rattle.node_rules.specs.Messages.{points_of, claimed};

    ghost Value = { List Leaf };

    ghost view = { λ c. claimed (points_of c.external.now) (rests_of c.message.now.proof.spends) };

    ghost invariant = { λ c. length c.message.now.proof.spends ≡ length c.external.now };
}

// What a message claims of the input at an index.
fn claim_at<'m>(external: &[Outside], message: &MessageView<'m>, index: usize) -> RecordView<'m>
    requires all { length message.now.proof.spends ≡ length external.now }
    requires within { index < length external.now }
    ensures { slice_get (claimed (points_of external.now) (rests_of message.now.proof.spends)) index ≡ Some result }
{
    let at = external[index];
    message.rest(index as u64).with_outpoint(at.txid, at.index)
}

impl<'s, 'm> MessageLeaves<'s, 'm> {
    /// The leaves that a message claims of these inputs, without a copy of either.
    pub fn new(external: &'s [Outside], message: &'s MessageView<'m>) -> MessageLeaves<'s, 'm>
        requires { length message.now.proof.spends ≡ length external.now }
        ensures { result ≡ claimed (points_of external.now) (rests_of message.now.proof.spends) }
    {
        MessageLeaves { external, message }
    }
}

impl<'s, 'm> Leaves for MessageLeaves<'s, 'm> {
    ghost leaves = { λ claims. claims };

    fn count(&self) -> usize {
        self.external.len()
    }

    fn leaf(&self, index: usize) -> RecordView<'_> {
        claim_at(self.external, self.message, index)
    }
}
