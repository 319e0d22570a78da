//! Roots that are kept and not changed.
ghost use Rattle.std.specs.Prelude.{◌≡◌, ℕ, ◌^◌, ◌<◌, ◌≤◌, false, IfOk};
ghost use Rattle.forest_place.specs.Forest.{is_slot};

use crate::Roots;
use std::alloc::{AllocError, Global};
use std::marker::{Model, PhantomData};
use uo_digest::{Digest, Digester};

/// The roots of a forest in the room that they take, by the digester `D`: [`Roots`] have room for 2^40 entries, however few
/// there are. For roots that are kept and not changed.
pub struct PackedRoots<D> {
    count: u64,

    // The rows up to the highest slot. Those above have no root.
    rows: Vec<Option<Digest>>,
    digester: PhantomData<D>,
}

impl<D> Model for PackedRoots<D> {
    ghost use Rattle.forest_roots.specs.Stump.{Stump, IsStump, stump_of};

    ghost Value = { Stump };

    ghost view = { λ s. stump_of s.count s.rows.items };

    ghost invariant = { λ s. IsStump (stump_of s.count s.rows.items) };
}

impl<D> Drop for PackedRoots<D> {
    fn drop(self) {
        let PackedRoots {
            count: _,
            rows: _,
            digester: _,
        } = self;
    }
}

// How many rows there are up to the highest slot.
fn rows_of(n: u64) -> usize
    requires { n < 2 ^ 40 }
    ensures few { result ≤ 40 }
    ensures above { (row : ℕ) → result ≤ row → is_slot n row ≡ false }
{
    if n == 0 { 0 } else { n.ilog2() as usize + 1 }
}

impl<D: Digester> Roots<D> {
    /// The same roots in the room that they take. No entry takes no memory.
    pub fn pack(&self, alloc: Global) -> Result<PackedRoots<D>, AllocError>
        ensures { IfOk result (λ packed. packed ≡ self.now) }
    {
        let rows = rows_of(self.count);
        Ok(PackedRoots {
            count: self.count,
            rows: Vec::from_slice(alloc, &self.slots[..rows])?,
            digester: PhantomData,
        })
    }
}

impl<D: Digester> PackedRoots<D> {
    /// The same roots, which can be changed.
    pub fn unpack(&self) -> Roots<D>
        ensures { result ≡ self.now }
    {
        let mut slots = [None; 40];
        slots[..self.rows.len()].copy_from_slice(&self.rows);
        Roots {
            count: self.count,
            slots,
            digester: PhantomData,
        }
    }
}
