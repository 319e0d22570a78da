//! Reading a state, whatever it says.
ghost use Rattle.std.specs.Prelude.{◌≡◌, ◌<◌, ◌≤◌, ◌^◌, [], map, IfSome};
ghost use Rattle.uo_base.specs.Reading.{Gives, GivesOrFails, times};
ghost use Rattle.uo_base.specs.Compact.{sized_at, counted_at};
ghost use Rattle.uo_digest.specs.Reading.{digest_in_front};
ghost use Rattle.forest_roots.specs.Stump.{empty_roots};
ghost use Rattle.state_text.specs.Reading.{leaves_at, root_at, roots_at, placed_at, entry_at, head_at, level_at, net_at, front_at, whole_at, claims};

use crate::entry::StoredEntry;
use crate::fault::StateFault;
use crate::spelled::{SpelledLevel, SpelledState};
use forest_place::{Naming, Place};
use forest_roots::Roots;
use leaf_record::{RecordView, read_rest};
use std::alloc::Global;
use uo_base::{Cursor, Net};
use uo_digest::{Digest, Digester};

#[tactic(auto, unfolding(uo_digest::specs::Reading::digest_in_front))]
fn read_digest(at: &mut Cursor<'_>) -> Option<Digest>
    ensures { Gives (λ d. d) result at.new (digest_in_front at.old) }
{
    let bytes = at.take(32)?;
    Some(Digest::from_bytes(bytes))
}

// A count of entries, where it is at most this.
#[tactic(auto, unfolding(crate::specs::Reading::leaves_at))]
fn read_leaves(at: &mut Cursor<'_>, most: u64) -> Option<u64>
    ensures exact { Gives (λ n. n) result at.new (leaves_at most at.old) }
    ensures within { IfSome result (λ n. n ≤ most) }
{
    let n = at.u64()?;
    if n <= most { Some(n) } else { None }
}

#[tactic(auto, unfolding(crate::specs::Reading::root_at))]
fn read_root(at: &mut Cursor<'_>) -> Option<Option<Digest>>
    ensures { Gives (λ root. root) result at.new (root_at at.old) }
{
    let mark = at.u8()?;
    if mark == 0 {
        return Some(None);
    }
    if mark == 1 {
        let digest = read_digest(at)?;
        return Some(Some(digest));
    }
    None
}

// The root of each slot, from the greatest down.
fn read_roots<D: Digester>(at: &mut Cursor<'_>, n: u64) -> Option<Roots<D>>
    requires { n < 2 ^ 40 }
    ensures { Gives (λ roots. roots) result at.new (roots_at 40 (empty_roots n) at.old) }
{
    let mut roots = Roots::of(n);
    let mut row: u8 = 40;
    while row > 0 {
        row -= 1;
        if roots.root(row).is_some() {
            let root = read_root(at)?;
            roots.put_root(row, root);
        }
    }
    Some(roots)
}

#[tactic(auto, unfolding(crate::specs::Reading::placed_at))]
fn read_place(at: &mut Cursor<'_>, naming: Naming, n: u64) -> Option<Place>
    requires { n < 2 ^ 40 }
    ensures { Gives (λ place. place) result at.new (placed_at naming n at.old) }
{
    let number = at.u64()?;
    naming.place(number, n)
}

// Number, place and output of an entry.
#[tactic(auto, unfolding(crate::specs::Reading::entry_at))]
fn read_parts<'a>(
    at: &mut Cursor<'a>,
    naming: Naming,
    n: u64,
) -> Option<(u64, Place, RecordView<'a>)>
    requires { n < 2 ^ 40 }
    ensures { Gives (λ parts. record { number = parts.0; place = parts.1; leaf = parts.2 }) result at.new (entry_at naming n at.old) }
{
    let number = at.u64()?;
    let place = read_place(at, naming, n)?;
    let txid = read_digest(at)?;
    let index = at.u32()?;
    let rest = read_rest(at)?;
    Some((number, place, rest.with_outpoint(txid, index)))
}

fn read_entry(
    alloc: Global,
    at: &mut Cursor<'_>,
    naming: Naming,
    n: u64,
) -> Result<StoredEntry, StateFault>
    requires { n < 2 ^ 40 }
    ensures { GivesOrFails (λ e. e) claims result at.new (entry_at naming n at.old) }
{
    let Some((number, place, leaf)) = read_parts(at, naming, n) else {
        return Err(StateFault::NotAState);
    };
    Ok(StoredEntry {
        number,
        place,
        leaf: leaf.to_record(alloc)?,
    })
}

fn read_entries(
    alloc: Global,
    at: &mut Cursor<'_>,
    naming: Naming,
    n: u64,
) -> Result<Vec<StoredEntry>, StateFault>
    requires { n < 2 ^ 40 }
    ensures { GivesOrFails (λ entries. entries.items) claims result at.new (counted_at (entry_at naming n) at.old) }
{
    let Some(count) = at.compact() else {
        return Err(StateFault::NotAState);
    };
    gather_entries(alloc, at, naming, n, count)
}

fn gather_entries(
    alloc: Global,
    at: &mut Cursor<'_>,
    naming: Naming,
    n: u64,
    count: u64,
) -> Result<Vec<StoredEntry>, StateFault>
    requires { n < 2 ^ 40 }
    ensures { GivesOrFails (λ entries. entries.items) claims result at.new (times (entry_at naming n) count at.old) }
{
    let mut entries = Vec::new(alloc);
    for _ in 0..count {
        entries.push(read_entry(alloc, at, naming, n)?)?;
    }
    Ok(entries)
}

fn read_hashes(alloc: Global, at: &mut Cursor<'_>) -> Result<Vec<Digest>, StateFault>
    ensures { GivesOrFails (λ hashes. hashes.items) claims result at.new (counted_at digest_in_front at.old) }
{
    let Some(count) = at.compact() else {
        return Err(StateFault::NotAState);
    };
    gather_hashes(alloc, at, count)
}

fn gather_hashes(alloc: Global, at: &mut Cursor<'_>, count: u64) -> Result<Vec<Digest>, StateFault>
    ensures { GivesOrFails (λ hashes. hashes.items) claims result at.new (times digest_in_front count at.old) }
{
    let mut hashes = Vec::new(alloc);
    for _ in 0..count {
        let Some(hash) = read_digest(at) else {
            return Err(StateFault::NotAState);
        };
        hashes.push(hash)?;
    }
    Ok(hashes)
}

// A level of a forest of at most so many entries.
fn read_level<D: Digester>(
    alloc: Global,
    at: &mut Cursor<'_>,
    naming: Naming,
    most: u64,
) -> Result<SpelledLevel<D>, StateFault>
    requires { most < 2 ^ 40 }
    ensures { GivesOrFails (λ l. l) claims result at.new (level_at naming most at.old) }
{
    let Some((tip, roots)) = read_head(at, most) else {
        return Err(StateFault::NotAState);
    };
    let kept = read_entries(alloc, at, naming, roots.leaves())?;
    let hashes = read_hashes(alloc, at)?;
    Ok(SpelledLevel {
        tip,
        roots,
        kept,
        hashes,
    })
}

// Newest block, and the roots.
#[tactic(auto, unfolding(crate::specs::Reading::head_at))]
fn read_head<D: Digester>(at: &mut Cursor<'_>, most: u64) -> Option<(Digest, Roots<D>)>
    requires { most < 2 ^ 40 }
    ensures { Gives (λ head. head) result at.new (head_at most at.old) }
{
    let tip = read_digest(at)?;
    let n = read_leaves(at, most)?;
    let roots = read_roots(at, n)?;
    Some((tip, roots))
}

fn gather_levels<D: Digester>(
    alloc: Global,
    at: &mut Cursor<'_>,
    naming: Naming,
    most: u64,
    count: u8,
) -> Result<Vec<SpelledLevel<D>>, StateFault>
    requires { most < 2 ^ 40 }
    ensures { GivesOrFails (λ levels. levels.items) claims result at.new (times (level_at naming most) count at.old) }
{
    let mut levels = Vec::new(alloc);
    for _ in 0..count {
        levels.push(read_level(alloc, at, naming, most)?)?;
    }
    Ok(levels)
}

fn read_script(alloc: Global, at: &mut Cursor<'_>) -> Result<Vec<u8>, StateFault>
    ensures { GivesOrFails (λ script. script.items) claims result at.new (sized_at at.old) }
{
    let Some(script) = front_script(at) else {
        return Err(StateFault::NotAState);
    };
    Ok(Vec::from_slice(alloc, script)?)
}

#[tactic(auto, unfolding(uo_base::specs::Compact::sized_at))]
fn front_script<'a>(at: &mut Cursor<'a>) -> Option<&'a [u8]>
    ensures { Gives (λ script. script.now) result at.new (sized_at at.old) }
{
    let count = at.compact()?;
    if count > at.rest().len() as u64 {
        return None;
    }
    at.take(count as usize)
}

fn read_scripts(alloc: Global, at: &mut Cursor<'_>) -> Result<Vec<Vec<u8>>, StateFault>
    ensures { GivesOrFails (λ scripts. map (λ script. script.items) scripts.items) claims result at.new (counted_at sized_at at.old) }
{
    let Some(count) = at.compact() else {
        return Err(StateFault::NotAState);
    };
    gather_scripts(alloc, at, count)
}

fn gather_scripts(
    alloc: Global,
    at: &mut Cursor<'_>,
    count: u64,
) -> Result<Vec<Vec<u8>>, StateFault>
    ensures { GivesOrFails (λ scripts. map (λ script. script.items) scripts.items) claims result at.new (times sized_at count at.old) }
{
    let mut scripts = Vec::new(alloc);
    for _ in 0..count {
        scripts.push(read_script(alloc, at)?)?;
    }
    Ok(scripts)
}

#[tactic(auto, unfolding(crate::specs::Reading::net_at))]
fn read_net(at: &mut Cursor<'_>) -> Option<Net>
    ensures { Gives (λ net. net) result at.new (net_at at.old) }
{
    match at.u8()? {
        0 => Some(Net::Main),
        1 => Some(Net::Regtest),
        _ => None,
    }
}

#[tactic(auto, unfolding(crate::specs::Reading::front_at))]
fn read_front(at: &mut Cursor<'_>) -> Option<(Net, u32)>
    ensures { Gives (λ front. front) result at.new (front_at at.old) }
{
    let net = read_net(at)?;
    let blocks = at.u32()?;
    Some((net, blocks))
}

// What follows the version, and nothing after it.
pub(crate) fn read_body<D: Digester>(
    alloc: Global,
    body: &[u8],
    naming: Naming,
    most: u64,
) -> Result<SpelledState<D>, StateFault>
    requires { most < 2 ^ 40 }
    ensures { GivesOrFails (λ s. s) claims result [] (whole_at naming most body.now) }
{
    let mut at = Cursor::new(body);
    let Some((net, blocks)) = read_front(&mut at) else {
        return Err(StateFault::NotAState);
    };
    let scripts = read_scripts(alloc, &mut at)?;
    let Some(count) = at.u8() else {
        return Err(StateFault::NotAState);
    };
    let levels = gather_levels(alloc, &mut at, naming, most, count)?;
    if !at.rest().is_empty() {
        return Err(StateFault::NotAState);
    }
    Ok(SpelledState {
        net,
        blocks,
        scripts,
        levels,
    })
}
