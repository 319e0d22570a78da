//! Writing what a node stores.
ghost use Rattle.std.specs.Prelude.{◌≡◌, ◌≤◌, ◌+◌, ◌++◌, ◌∷◌, length, suc, OnOk, IsErrOf};
ghost use Rattle.std.specs.Io.KnownBytes.{Appends};
ghost use Rattle.uo_base.specs.Faults.{Rose};
ghost use Rattle.uo_base.specs.Moved.{AppendsPart};
ghost use Rattle.forest_model.specs.Cover.{HasShape};
ghost use Rattle.cache_model.specs.Lists.{leaf_places};
ghost use Rattle.cache_update.specs.Marks.{kept_back, held_back};
ghost use Rattle.state_text.specs.Ordered.{kept_text};
ghost use Rattle.state_text.specs.Stored.{front_text};
ghost use Rattle.compact_node.specs.State.{stored_text};
ghost use Rattle.compact_node.specs.Written.{AllCanBeWritten, CanBeWritten, behind_written, levels_written, past_written};

use crate::node::Node;
use crate::past::Past;
use cache_update::step_back;
use forest_roots::Roots;
use leaf_cache::Parts;
use reorg_undo::Ring;
use state_text::{write_front, write_level};
use std::alloc::Global;
use uo_base::{NoMemory, Sink, SinkFault};
use uo_digest::{Digest, Digester};

// Takes the lists back to those of an older level, and writes it.
fn write_past<W: Sink, D: Digester>(
    alloc: Global,
    sink: &mut W,
    parts: &mut Parts,
    past: &Past<D>,
) -> Result<(), SinkFault>
    requires { CanBeWritten past.now parts.old.kept }
    ensures kept { OnOk result (parts.new.kept ≡ kept_back past.now.mark parts.old.kept) }
    ensures held { OnOk result (parts.new.held ≡ held_back past.now.mark parts.old.held) }
    ensures whole { OnOk result (Appends (W.held sink.old) (W.held sink.new) (past_written past.now parts.old.kept parts.old.held)) }
    ensures part { AppendsPart (W.held sink.old) (W.held sink.new) (past_written past.now parts.old.kept parts.old.held) }
    ensures later { W.faults sink.old ≤ W.faults sink.new }
    ensures cause { IsErrOf result SinkFault.Failed → Rose (W.faults sink.old) (W.faults sink.new) }
{
    match step_back(alloc, parts, &past.mark) {
        Ok(()) => write_level(alloc, sink, past.chain.tip, &past.roots.unpack(), parts),
        Err(NoMemory) => Err(SinkFault::NoMemory),
    }
}

// Writes the older levels behind the one that has these lists.
fn write_older<W: Sink, D: Digester>(
    alloc: Global,
    sink: &mut W,
    parts: &mut Parts,
    older: &Ring<Past<D>>,
) -> Result<(), SinkFault>
    requires { AllCanBeWritten older.now parts.old.kept }
    ensures whole { OnOk result (Appends (W.held sink.old) (W.held sink.new) (behind_written older.now parts.old.kept parts.old.held)) }
    ensures part { AppendsPart (W.held sink.old) (W.held sink.new) (behind_written older.now parts.old.kept parts.old.held) }
    ensures later { W.faults sink.old ≤ W.faults sink.new }
    ensures cause { IsErrOf result SinkFault.Failed → Rose (W.faults sink.old) (W.faults sink.new) }
{
    for i in 0..older.kept() {
        write_past(alloc, sink, parts, older.get(i))?;
    }
    Ok(())
}

// Writes a level with this newest block, these roots and lists, and the older ones behind it.
fn write_levels<W: Sink, D: Digester>(
    alloc: Global,
    sink: &mut W,
    tip: Digest,
    roots: &Roots<D>,
    parts: &mut Parts,
    older: &Ring<Past<D>>,
) -> Result<(), SinkFault>
    requires newest { HasShape roots.now.leaves (leaf_places parts.old.kept) }
    requires older { AllCanBeWritten older.now parts.old.kept }
    ensures whole { OnOk result (Appends (W.held sink.old) (W.held sink.new)
        (kept_text (record { tip = tip; roots = roots.now; kept = parts.old.kept; held = parts.old.held })
        ++ behind_written older.now parts.old.kept parts.old.held)) }
    ensures part { AppendsPart (W.held sink.old) (W.held sink.new)
        (kept_text (record { tip = tip; roots = roots.now; kept = parts.old.kept; held = parts.old.held })
        ++ behind_written older.now parts.old.kept parts.old.held) }
    ensures later { W.faults sink.old ≤ W.faults sink.new }
    ensures cause { IsErrOf result SinkFault.Failed → Rose (W.faults sink.old) (W.faults sink.new) }
{
    write_level(alloc, sink, tip, roots, parts)?;
    write_older(alloc, sink, parts, older)
}

impl<D: Digester> Node<D> {
    // Writes what stands before the levels.
    fn write_head<W: Sink>(&self, sink: &mut W) -> Result<(), SinkFault>
        ensures whole { OnOk result (Appends (W.held sink.old) (W.held sink.new)
            (front_text self.now.rules.net self.now.newest.chain.blocks self.now.scripts (suc (length self.now.older)))) }
        ensures part { AppendsPart (W.held sink.old) (W.held sink.new)
            (front_text self.now.rules.net self.now.newest.chain.blocks self.now.scripts (suc (length self.now.older))) }
        ensures later { W.faults sink.old ≤ W.faults sink.new }
        ensures cause { IsErrOf result SinkFault.Failed → Rose (W.faults sink.old) (W.faults sink.new) }
    {
        let levels = 1 + self.older.kept() as u8;
        write_front(
            self.alloc,
            sink,
            self.net,
            self.chain.blocks,
            self.cache.watch(),
            levels,
        )
    }

    // Writes the levels. The lists of the older ones are made of a copy of the newest.
    fn write_all_levels<W: Sink>(&self, sink: &mut W) -> Result<(), SinkFault>
        ensures whole { OnOk result (Appends (W.held sink.old) (W.held sink.new) (levels_written (self.now.newest ∷ self.now.older))) }
        ensures part { AppendsPart (W.held sink.old) (W.held sink.new) (levels_written (self.now.newest ∷ self.now.older)) }
        ensures later { W.faults sink.old ≤ W.faults sink.new }
        ensures cause { IsErrOf result SinkFault.Failed → Rose (W.faults sink.old) (W.faults sink.new) }
    {
        match self.cache.seen().copy(self.alloc) {
            Ok(mut parts) => write_levels(
                self.alloc,
                sink,
                self.chain.tip,
                &self.roots,
                &mut parts,
                &self.older,
            ),
            Err(NoMemory) => Err(SinkFault::NoMemory),
        }
    }

    /// Writes the node's state as text: `UTXS`, the version 2, the network, how many blocks there are, the watched scripts, how many
    /// levels follow, and the levels, the present one first: of each its newest block, its roots, the kept entries, and the
    /// digests that a proof of these needs. Where a fault comes, a front of it is written.
    pub fn write_state<W: Sink>(&self, sink: &mut W) -> Result<(), SinkFault>
        ensures whole { OnOk result (Appends (W.held sink.old) (W.held sink.new) (stored_text self.now)) }
        ensures part { AppendsPart (W.held sink.old) (W.held sink.new) (stored_text self.now) }
        ensures later { W.faults sink.old ≤ W.faults sink.new }
        ensures cause { IsErrOf result SinkFault.Failed → Rose (W.faults sink.old) (W.faults sink.new) }
    {
        self.write_head(sink)?;
        self.write_all_levels(sink)
    }
}
