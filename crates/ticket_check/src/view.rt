//! A ticket as it lies in its source.
ghost use Rattle.std.specs.Prelude.{◌≡◌, ◌<◌, length, slice_get, Some};
ghost use Rattle.leaf_record.specs.Leaf.{LeafFits};

use leaf_record::RecordView;
use std::marker::Model;
use uo_digest::{Digest, Digests};

/// A ticket that holds no copy of its parts; contracts see what it says.
#[derive(Drop)]
pub struct TicketView<'a> {
    pub(crate) tip: Digest,
    pub(crate) target: u64,
    pub(crate) leaf: RecordView<'a>,
    pub(crate) hashes: &'a [u8],
}

impl<'a> Model for TicketView<'a> {
    ghost use Rattle.uo_digest.specs.Reading.{digests_in};
    ghost use Rattle.ticket_check.specs.Tickets.{Ticket};
    ghost use Rattle.ticket_check.specs.Reading.{AreWholeDigests};

    ghost Value = { Ticket };

    ghost view = { λ k. record { tip = k.tip; target = k.target; leaf = k.leaf; hashes = digests_in k.hashes.now } };

    ghost invariant = { λ k. AreWholeDigests k.hashes.now };
}

impl<'a> TicketView<'a> {
    /// The hash of the block up to which it speaks.
    pub fn tip(&self) -> Digest
        ensures { result ≡ self.now.tip }
    {
        self.tip
    }

    /// The fixed position of the leaf.
    pub fn target(&self) -> u64
        ensures { result ≡ self.now.target }
    {
        self.target
    }

    /// The output.
    pub fn leaf(&self) -> RecordView<'a>
        ensures is { result ≡ self.now.leaf }
        ensures fits { LeafFits self.now.leaf }
    {
        let rest = self.leaf.rest();
        rest.with_outpoint(self.leaf.txid, self.leaf.index)
    }

    /// How many hashes there are.
    pub fn hash_count(&self) -> u64
        ensures { result ≡ length self.now.hashes }
    {
        self.hashes().len() as u64
    }

    /// A hash, in the order of positions.
    pub fn hash(&self, i: u64) -> Digest
        requires { i < length self.now.hashes }
        ensures { slice_get self.now.hashes i ≡ Some result }
    {
        self.hashes().get(i as usize)
    }

    /// All of them, as they lie in the ticket.
    pub fn hashes(&self) -> Digests<'a>
        ensures { result ≡ self.now.hashes }
    {
        Digests::new(self.hashes)
    }
}
