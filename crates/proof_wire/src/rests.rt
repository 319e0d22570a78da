//! The rests of spends, spelled before it is known where their leaves stand.
ghost use Rattle.std.specs.Prelude.{◌≡◌, ◌∷◌, ◌++◌, [], IfOk, OnOk, OnErr};

use leaf_record::{RestView, write_rest};
use std::alloc::Global;
use std::marker::Model;
use uo_base::NoMemory;

/// What spent outputs are beside their names, one behind the other as a message spells them; contracts see the list of
/// rests.
#[derive(Debug, Drop)]
pub struct Rests {
    // No code reads it: contracts see so many rests of the text.
    count: usize,
    pub(crate) text: Vec<u8>,
}

impl Model for Rests {
    ghost use Rattle.std.specs.Prelude.{List};
    ghost use Rattle.leaf_record.specs.Leaf.{Rest};
    ghost use Rattle.proof_wire.specs.Making.{rests_made, IsOfRests};

    ghost Value = { List Rest };

    ghost view = { λ r. rests_made r.count r.text.items };

    ghost invariant = { λ r. IsOfRests r.count r.text.items };
}

impl Rests {
    /// No rest, and room for so many with usual scripts.
    pub fn with_room(alloc: Global, count: usize) -> Result<Rests, NoMemory>
        ensures { IfOk result (λ r. r ≡ []) }
    {
        let text = Vec::with_capacity(alloc, count.saturating_mul(REST_ROOM))?;
        Ok(Rests { count: 0, text })
    }

    /// One more.
    pub fn push(&mut self, rest: &RestView<'_>) -> Result<(), NoMemory>
        ensures ok { OnOk result (self.new ≡ self.old ++ rest.now ∷ []) }
        ensures err { OnErr result (self.new ≡ self.old) }
    {
        write_rest(rest, &mut self.text)?;
        self.count += 1;
        Ok(())
    }
}

/// Bytes of a rest: hash, height, amount, and a script of 34 bytes, the longest of the usual ones, behind its length.
const REST_ROOM: usize = 32 + 4 + 8 + 1 + 34;
