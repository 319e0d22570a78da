//! A block that arrived.
ghost use Rattle.std.specs.Prelude.{◌≡◌, IfOk};

use std::alloc::{AllocError, Global};
use std::marker::Model;
use uo_digest::Digest;

/// A block that arrived, with its bytes in room of their own, so that they are copied once and never moved.
#[derive(Drop)]
pub struct Stored {
    hash: Digest,
    prev: Digest,
    body: Vec<u8>,
}

impl Model for Stored {
    ghost use Rattle.chain_order.specs.Arrivals.{Arrival};

    ghost Value = { Arrival };

    ghost view = { λ s. record { hash = s.hash; prev = s.prev; body = s.body.items } };
}

impl Stored {
    /// Copies the bytes.
    pub fn new(alloc: Global, hash: Digest, prev: Digest, body: &[u8]) -> Result<Stored, AllocError>
        ensures { IfOk result (λ s. s ≡ record { hash = hash; prev = prev; body = body.now }) }
    {
        Ok(Stored {
            hash,
            prev,
            body: body.to_vec(alloc)?,
        })
    }

    /// The hash that it names as the one before it.
    pub fn prev(&self) -> Digest
        ensures { result ≡ self.now.prev }
    {
        self.prev
    }

    /// Its bytes.
    pub fn body(&self) -> &[u8]
        ensures { result.now ≡ self.now.body }
    {
        &self.body
    }
}
