//! The newest entries by their marks, for marks that find no room in their bucket.
ghost use Rattle.std.specs.Prelude.{◌≡◌, ◌≢◌, ◌/◌, ◌<◌, ℕ, [], length, Some, None, IsSome, IfOk, OnOk, OnErr};
ghost use Rattle.std.specs.BTreeMap.{get};
ghost use Rattle.std.specs.Ordering.{nat_cmp};
ghost use Rattle.output_index.specs.Overflow.{AreMaps, in_maps, map_of, maps_in, TellsOther};

use std::alloc::Global;
use std::collections::BTreeMap;
use std::collections::btree_map::Entry;
use std::marker::Model;
use uo_base::NoMemory;

/// So many maps, each for as many marks.
const MAPS: usize = 16_384;

/// The number of the newest held entry of each mark, live or spent. A mark is there exactly as long as an entry of it is held.
///
/// They lie in many small maps, so that a search meets few nodes. No map is there before the first entry comes.
#[derive(Drop)]
pub(crate) struct Overflow {
    alloc: Global,
    maps: Vec<BTreeMap<u64, u64>>,
}

impl Model for Overflow {
    ghost use Rattle.output_index.specs.Overflow.{MarkMaps, AreMaps, maps_in};

    ghost Value = { MarkMaps };

    ghost view = { λ o. maps_in o.maps.items };

    ghost invariant = { λ o. AreMaps (maps_in o.maps.items) };
}

impl Overflow {
    /// No entry of any mark.
    pub fn new(alloc: Global) -> Self
        ensures { result ≡ [] }
    {
        Overflow {
            alloc,
            maps: Vec::new(alloc),
        }
    }

    /// The newest entry of a mark; None where the mark is not there.
    pub fn get(&self, mark: u64) -> Option<u64>
        ensures { result ≡ in_maps self.now mark }
    {
        match self.maps.get(map_of(mark)) {
            Some(map) => map.get(&mark).copied(),
            None => None,
        }
    }

    /// The entry is the newest of its mark from now on. The one that was the newest before is answered, if there was one. Where
    /// there is no memory, all marks tell what they told.
    pub fn put_newest(&mut self, mark: u64, number: u64) -> Result<Option<u64>, NoMemory>
        ensures before { IfOk result (λ before. before ≡ in_maps self.old mark) }
        ensures here { OnOk result (in_maps self.new mark ≡ Some number) }
        ensures others { (m : ℕ) → m ≢ mark → in_maps self.new m ≡ in_maps self.old m }
        ensures err { OnErr result (in_maps self.new mark ≡ in_maps self.old mark) }
    {
        make_maps(&mut self.maps, self.alloc)?;
        let before = self.maps[map_of(mark)].insert(mark, number)?;
        Ok(before)
    }

    /// Where the entry is the newest of its mark, the older one that it tells takes its place, and the mark is gone where it tells
    /// none. Where another is the newest, that one stays and is answered.
    pub fn take_newest(&mut self, mark: u64, number: u64, older: Option<u64>) -> Option<u64>
        requires { IsSome (in_maps self.old mark) }
        ensures other { TellsOther number (in_maps self.old mark) result }
        ensures older { result ≡ None → in_maps self.new mark ≡ older }
        ensures stays { IsSome result → in_maps self.new mark ≡ in_maps self.old mark }
        ensures others { (m : ℕ) → m ≢ mark → in_maps self.new m ≡ in_maps self.old m }
    {
        take_newest_in(&mut self.maps[map_of(mark)], mark, number, older)
    }
}

/// The number of the map that a mark is in. The outputs of one transaction have marks that follow each other: runs of 64 lie side by
/// side in one map, and the next run is in the next map, so no map gets deep by a transaction of many outputs.
fn map_of(mark: u64) -> usize
    ensures is { result ≡ map_of mark }
    ensures few { result < 16384 }
{
    (mark / 64 % 16_384) as usize
}

/// Makes the maps, if none is there.
fn make_maps(maps: &mut Vec<BTreeMap<u64, u64>>, alloc: Global) -> Result<(), NoMemory>
    requires { AreMaps (maps_in maps.old.items) }
    ensures same { (m : ℕ) → in_maps (maps_in maps.new.items) m ≡ in_maps (maps_in maps.old.items) m }
    ensures len { OnOk result (length maps.new.items ≡ 16384) }
    ensures err { OnErr result (maps.new.items ≡ maps.old.items) }
{
    if maps.is_empty() {
        *maps = empty_maps(alloc)?;
    }
    Ok(())
}

/// All maps, in which nothing is yet.
fn empty_maps(alloc: Global) -> Result<Vec<BTreeMap<u64, u64>>, NoMemory>
    ensures none { IfOk result (λ maps. (m : ℕ) → in_maps (maps_in maps.items) m ≡ None) }
    ensures len { IfOk result (λ maps. length maps.items ≡ 16384) }
{
    let mut maps = Vec::with_capacity(alloc, MAPS)?;
    for _ in 0..MAPS {
        maps.push(BTreeMap::new(alloc))?;
    }
    Ok(maps)
}

fn take_newest_in(
    newest: &mut BTreeMap<u64, u64>,
    mark: u64,
    number: u64,
    older: Option<u64>,
) -> Option<u64>
    requires { IsSome (get nat_cmp newest.old mark) }
    ensures other { TellsOther number (get nat_cmp newest.old mark) result }
    ensures older { result ≡ None → get nat_cmp newest.new mark ≡ older }
    ensures stays { IsSome result → get nat_cmp newest.new mark ≡ get nat_cmp newest.old mark }
    ensures others { (m : ℕ) → m ≢ mark → get nat_cmp newest.new m ≡ get nat_cmp newest.old m }
{
    let Ok(Entry::Occupied(mut held)) = newest.entry(mark) else {
        unreachable!()
    };
    let told = *held.get();
    if told != number {
        return Some(told);
    }
    match older {
        Some(older) => {
            held.insert(older);
            None
        }
        None => {
            held.remove();
            None
        }
    }
}
