//! Writing a state.
ghost use Rattle.std.specs.Prelude.{◌≡◌, ◌++◌, ◌<◌, ◌≤◌, ◌^◌, ℕ, List, length, map, filter_map, IfOk, OnOk, OnErr, IsErrOf};
ghost use Rattle.std.specs.Int.{w32, w64, to_le_bytes};
ghost use Rattle.std.specs.List.{flat_map};
ghost use Rattle.std.specs.Option.{option_to_list};
ghost use Rattle.std.specs.Io.KnownBytes.{Appends};
ghost use Rattle.uo_base.specs.Faults.{Rose};
ghost use Rattle.uo_base.specs.Moved.{Grew, AppendsPart};
ghost use Rattle.uo_base.specs.Compact.{sized, counted};
ghost use Rattle.uo_digest.specs.Reading.{digest_text};
ghost use Rattle.leaf_record.specs.Leaf.{rest_text};
ghost use Rattle.forest_place.specs.declared.naming.Naming.TheVariants.{FixedPosition};
ghost use Rattle.forest_place.specs.Forest.{InForest};
ghost use Rattle.forest_place.specs.Places.{AreWithin};
ghost use Rattle.forest_model.specs.Cover.{HasShape, need};
ghost use Rattle.cache_model.specs.Cache.{look};
ghost use Rattle.cache_model.specs.Lists.{AscendByPlace, leaf_places};
ghost use Rattle.state_text.specs.Stored.{net_code, root_text, roots_text, entry_text, level_text, front_text, state_text};
ghost use Rattle.state_text.specs.Cached.{entry_of, level_in, state_in};
ghost use Rattle.state_text.specs.Ordered.{kept_text};

use crate::fault::StateFault;
use crate::level::StoredLevel;
use crate::state::StoredState;
use crate::targets::targets_of;
use forest_place::{Naming, Place};
use forest_roots::Roots;
use leaf_cache::{Kept, Parts, Watch, digest_in};
use leaf_record::{Record, RecordView, write_rest};
use proof_shape::Survey;
use std::alloc::Global;
use uo_base::{Net, NoMemory, Sink, SinkFault, put_all, put_compact, put_sized};
use uo_digest::{Digest, Digester};

fn put_root(out: &mut Vec<u8>, root: Option<Digest>) -> Result<(), NoMemory>
    ensures ok { OnOk result (out.new.items ≡ out.old.items ++ root_text root) }
    ensures err { OnErr result (Grew out.old.items out.new.items) }
{
    match root {
        None => out.push(0)?,
        Some(digest) => {
            out.push(1)?;
            out.extend_from_slice(&digest.0)?;
        }
    }
    Ok(())
}

// The root of each slot, from the greatest down.
fn put_roots<D: Digester>(out: &mut Vec<u8>, roots: &Roots<D>) -> Result<(), NoMemory>
    ensures ok { OnOk result (out.new.items ≡ out.old.items ++ roots_text 40 roots.now) }
    ensures err { OnErr result (Grew out.old.items out.new.items) }
{
    let mut row: u8 = 40;
    while row > 0 {
        row -= 1;
        if let Some(root) = roots.root(row) {
            put_root(out, root)?;
        }
    }
    Ok(())
}

fn put_leaf(out: &mut Vec<u8>, leaf: &RecordView<'_>) -> Result<(), NoMemory>
    ensures ok { OnOk result (out.new.items ≡ out.old.items
        ++ (leaf.now.point.txid.0 ++ (to_le_bytes w32 leaf.now.point.index ++ rest_text leaf.now.rest))) }
    ensures err { OnErr result (Grew out.old.items out.new.items) }
{
    let rest = leaf.rest();
    out.extend_from_slice(&leaf.txid.0)?;
    out.extend_from_slice(&leaf.index.to_le_bytes())?;
    write_rest(&rest, out)?;
    Ok(())
}

fn put_numbers(out: &mut Vec<u8>, number: u64, place: u64) -> Result<(), NoMemory>
    ensures ok { OnOk result (out.new.items ≡ out.old.items ++ (to_le_bytes w64 number ++ to_le_bytes w64 place)) }
    ensures err { OnErr result (Grew out.old.items out.new.items) }
{
    out.extend_from_slice(&number.to_le_bytes())?;
    out.extend_from_slice(&place.to_le_bytes())?;
    Ok(())
}

// A kept entry of a forest of n entries.
#[tactic(auto, unfolding(crate::specs::Stored::entry_text))]
fn put_entry(
    out: &mut Vec<u8>,
    n: u64,
    number: u64,
    place: Place,
    leaf: &Record,
) -> Result<(), NoMemory>
    requires few { n < 2 ^ 40 }
    requires within { InForest n place.row place.off }
    ensures ok { OnOk result (out.new.items ≡ out.old.items
        ++ entry_text FixedPosition n (record { number = number; place = place; leaf = leaf.now })) }
    ensures err { OnErr result (Grew out.old.items out.new.items) }
{
    let view = leaf.view();
    let at = Naming::FixedPosition.number(place, n);
    put_numbers(out, number, at)?;
    put_leaf(out, &view)?;
    Ok(())
}

// Kept entries of a forest of n entries, behind their count.
fn put_entries(out: &mut Vec<u8>, n: u64, kept: &[Kept]) -> Result<(), NoMemory>
    requires few { n < 2 ^ 40 }
    requires within { AreWithin n (leaf_places kept.now) }
    ensures ok { OnOk result (out.new.items ≡ out.old.items ++ counted (entry_text FixedPosition n) (map entry_of kept.now)) }
    ensures err { OnErr result (Grew out.old.items out.new.items) }
{
    put_compact(out, kept.len() as u64)?;
    for entry in kept {
        put_entry(out, n, entry.number, entry.place, &entry.leaf)?;
    }
    Ok(())
}

fn put_hashes(out: &mut Vec<u8>, hashes: &[Digest]) -> Result<(), NoMemory>
    ensures ok { OnOk result (out.new.items ≡ out.old.items ++ counted digest_text hashes.now) }
    ensures err { OnErr result (Grew out.old.items out.new.items) }
{
    put_compact(out, hashes.len() as u64)?;
    for hash in hashes {
        out.extend_from_slice(&hash.0)?;
    }
    Ok(())
}

fn places_in(alloc: Global, kept: &[Kept]) -> Result<Vec<Place>, NoMemory>
    ensures { IfOk result (λ places. places.items ≡ leaf_places kept.now) }
{
    Ok(kept.iter().map(|entry| entry.place).collect(alloc)?)
}

fn targets_in(alloc: Global, n: u64, kept: &[Kept]) -> Result<Survey, NoMemory>
    requires few { n < 2 ^ 40 }
    requires shape { HasShape n (leaf_places kept.now) }
    ensures { IfOk result (λ t. (t.leaves ≡ n) × (t.targets ≡ leaf_places kept.now)) }
{
    let places = places_in(alloc, kept)?;
    match targets_of(alloc, n, &places) {
        Ok(targets) => Ok(targets),
        Err(StateFault::NoMemory) => Err(NoMemory),
        Err(StateFault::NotAState) => unreachable!(),
        Err(StateFault::Version(_)) => unreachable!(),
    }
}

// The digests that are held at these places.
fn digests_at(
    alloc: Global,
    held: &[(Place, Digest)],
    places: &[Place],
) -> Result<Vec<Digest>, NoMemory>
    requires { AscendByPlace held.now }
    ensures { IfOk result (λ digests. digests.items ≡ filter_map (λ p. look held.now p.row p.off) places.now) }
{
    let mut digests = Vec::with_capacity(alloc, places.len())?;
    for i in 0..places.len() {
        push_digest(&mut digests, digest_in(held, places[i]))?;
    }
    Ok(digests)
}

fn push_digest(digests: &mut Vec<Digest>, digest: Option<Digest>) -> Result<(), NoMemory>
    ensures { OnOk result (digests.new.items ≡ digests.old.items ++ option_to_list digest) }
{
    if let Some(digest) = digest {
        digests.push(digest)?;
    }
    Ok(())
}

// The parts of a level in a row.
#[tactic(auto, unfolding(crate::specs::Stored::level_text))]
fn put_level<D: Digester>(
    out: &mut Vec<u8>,
    tip: Digest,
    roots: &Roots<D>,
    kept: &[Kept],
    hashes: &[Digest],
) -> Result<(), NoMemory>
    requires { AreWithin roots.now.leaves (leaf_places kept.now) }
    ensures ok { OnOk result (out.new.items ≡ out.old.items
        ++ level_text FixedPosition (record { tip = tip; roots = roots.now; kept = map entry_of kept.now; hashes = hashes.now })) }
    ensures err { OnErr result (Grew out.old.items out.new.items) }
{
    let n = roots.leaves();
    out.extend_from_slice(&tip.0)?;
    out.extend_from_slice(&n.to_le_bytes())?;
    put_roots(out, roots)?;
    put_entries(out, n, kept)?;
    put_hashes(out, hashes)?;
    Ok(())
}

fn put_scripts(out: &mut Vec<u8>, watch: &Watch) -> Result<(), NoMemory>
    ensures ok { OnOk result (out.new.items ≡ out.old.items ++ counted sized watch.now) }
    ensures err { OnErr result (Grew out.old.items out.new.items) }
{
    let count = watch.scripts();
    put_compact(out, count as u64)?;
    for i in 0..count {
        put_sized(out, watch.script(i))?;
    }
    Ok(())
}

fn code_of(net: Net) -> u8
    ensures { result ≡ net_code net }
{
    match net {
        Net::Main => 0,
        Net::Regtest => 1,
    }
}

// What stands before the levels.
fn put_front(
    out: &mut Vec<u8>,
    net: Net,
    blocks: u32,
    watch: &Watch,
    levels: u8,
) -> Result<(), NoMemory>
    ensures ok { OnOk result (out.new.items ≡ out.old.items ++ front_text net blocks watch.now levels) }
    ensures err { OnErr result (Grew out.old.items out.new.items) }
{
    out.extend_from_slice(&[
        b'U',
        b'T',
        b'X',
        b'S',
        Naming::FixedPosition.version(),
        code_of(net),
    ])?;
    out.extend_from_slice(&blocks.to_le_bytes())?;
    put_scripts(out, watch)?;
    out.push(levels)?;
    Ok(())
}

fn front_bytes(
    alloc: Global,
    net: Net,
    blocks: u32,
    watch: &Watch,
    levels: u8,
) -> Result<Vec<u8>, NoMemory>
    ensures { IfOk result (λ bytes. bytes.items ≡ front_text net blocks watch.now levels) }
{
    let mut bytes = Vec::new(alloc);
    put_front(&mut bytes, net, blocks, watch, levels)?;
    Ok(bytes)
}

fn level_bytes<D: Digester>(
    alloc: Global,
    tip: Digest,
    roots: &Roots<D>,
    parts: &Parts,
) -> Result<Vec<u8>, NoMemory>
    requires { HasShape roots.now.leaves (leaf_places parts.now.kept) }
    ensures { IfOk result (λ bytes. bytes.items
        ≡ level_text FixedPosition (level_in (record { tip = tip; roots = roots.now; kept = parts.now.kept; held = parts.now.held }))) }
{
    let targets = targets_in(alloc, roots.leaves(), &parts.kept)?;
    let hashes = digests_at(alloc, &parts.held, targets.needed())?;
    let mut bytes = Vec::new(alloc);
    put_level(&mut bytes, tip, roots, &parts.kept, &hashes)?;
    Ok(bytes)
}

// Writes a piece, where there was memory to make it.
fn put_piece<W: Sink>(sink: &mut W, piece: Result<Vec<u8>, NoMemory>) -> Result<(), SinkFault>
    ensures whole { (text : List ℕ) → IfOk piece (λ bytes. bytes.items ≡ text) → OnOk result (Appends (W.held sink.old) (W.held sink.new) text) }
    ensures part { (text : List ℕ) → IfOk piece (λ bytes. bytes.items ≡ text) → AppendsPart (W.held sink.old) (W.held sink.new) text }
    ensures later { W.faults sink.old ≤ W.faults sink.new }
    ensures cause { IsErrOf result SinkFault.Failed → Rose (W.faults sink.old) (W.faults sink.new) }
{
    match piece {
        Ok(bytes) => put_all(sink, &bytes),
        Err(NoMemory) => Err(SinkFault::NoMemory),
    }
}

/// Writes what stands before the levels of a state: the network, how many blocks the chain has, the watched scripts, and how
/// many levels follow. Where a fault comes, a front of it is written.
pub fn write_front<W: Sink>(
    alloc: Global,
    sink: &mut W,
    net: Net,
    blocks: u32,
    watch: &Watch,
    levels: u8,
) -> Result<(), SinkFault>
    ensures whole { OnOk result (Appends (W.held sink.old) (W.held sink.new) (front_text net blocks watch.now levels)) }
    ensures part { AppendsPart (W.held sink.old) (W.held sink.new) (front_text net blocks watch.now levels) }
    ensures later { W.faults sink.old ≤ W.faults sink.new }
    ensures cause { IsErrOf result SinkFault.Failed → Rose (W.faults sink.old) (W.faults sink.new) }
{
    put_piece(sink, front_bytes(alloc, net, blocks, watch, levels))
}

/// Writes a level of a state: its newest block, or 32 zero bytes where there is none, its roots, its kept entries, and the
/// digests that are held at the places that a proof of these needs. The levels of a state stand one after the other, the present
/// one first. Where a fault comes, a front of the text is written.
pub fn write_level<W: Sink, D: Digester>(
    alloc: Global,
    sink: &mut W,
    tip: Digest,
    roots: &Roots<D>,
    parts: &Parts,
) -> Result<(), SinkFault>
    requires { HasShape roots.now.leaves (leaf_places parts.now.kept) }
    ensures whole { OnOk result (Appends (W.held sink.old) (W.held sink.new)
        (level_text FixedPosition (level_in (record { tip = tip; roots = roots.now; kept = parts.now.kept; held = parts.now.held })))) }
    ensures part { AppendsPart (W.held sink.old) (W.held sink.new)
        (level_text FixedPosition (level_in (record { tip = tip; roots = roots.now; kept = parts.now.kept; held = parts.now.held }))) }
    ensures later { W.faults sink.old ≤ W.faults sink.new }
    ensures cause { IsErrOf result SinkFault.Failed → Rose (W.faults sink.old) (W.faults sink.new) }
{
    put_piece(sink, level_bytes(alloc, tip, roots, parts))
}

fn put_stored<W: Sink, D: Digester>(
    alloc: Global,
    sink: &mut W,
    level: &StoredLevel<D>,
) -> Result<(), SinkFault>
    ensures whole { OnOk result (Appends (W.held sink.old) (W.held sink.new) (kept_text level.now)) }
    ensures part { AppendsPart (W.held sink.old) (W.held sink.new) (kept_text level.now) }
    ensures later { W.faults sink.old ≤ W.faults sink.new }
    ensures cause { IsErrOf result SinkFault.Failed → Rose (W.faults sink.old) (W.faults sink.new) }
{
    write_level(alloc, sink, level.tip, &level.roots, &level.parts)
}

fn put_levels<W: Sink, D: Digester>(
    alloc: Global,
    sink: &mut W,
    levels: &[StoredLevel<D>],
) -> Result<(), SinkFault>
    ensures whole { OnOk result (Appends (W.held sink.old) (W.held sink.new) (flat_map kept_text levels.now)) }
    ensures part { AppendsPart (W.held sink.old) (W.held sink.new) (flat_map kept_text levels.now) }
    ensures later { W.faults sink.old ≤ W.faults sink.new }
    ensures cause { IsErrOf result SinkFault.Failed → Rose (W.faults sink.old) (W.faults sink.new) }
{
    for level in levels {
        put_stored(alloc, sink, level)?;
    }
    Ok(())
}

impl<D: Digester> StoredState<D> {
    fn level_count(&self) -> u8
        requires { length self.now.levels < 256 }
        ensures { result ≡ length self.now.levels }
    {
        self.levels.len() as u8
    }

    /// Writes the text of the state, or a front of it where a fault comes. There are at most 255 levels.
    pub fn write<W: Sink>(&self, alloc: Global, sink: &mut W) -> Result<(), SinkFault>
        requires { length self.now.levels < 256 }
        ensures whole { OnOk result (Appends (W.held sink.old) (W.held sink.new) (state_text (state_in self.now))) }
        ensures part { AppendsPart (W.held sink.old) (W.held sink.new) (state_text (state_in self.now)) }
        ensures later { W.faults sink.old ≤ W.faults sink.new }
        ensures cause { IsErrOf result SinkFault.Failed → Rose (W.faults sink.old) (W.faults sink.new) }
    {
        let count = self.level_count();
        write_front(alloc, sink, self.net, self.blocks, &self.watch, count)?;
        put_levels(alloc, sink, &self.levels)
    }
}
