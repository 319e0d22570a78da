//! Many additions at once, a row of nodes after the other.
ghost use Rattle.std.specs.Prelude.{◌≡◌, ◌+◌, ◌*◌, ◌/◌, ◌^◌, ◌<◌, ◌≤◌, ◌++◌, true, List, length, take, drop, count_ones};
ghost use Rattle.uo_digest.specs.declared.digest.Digest.{Digest as Digested};
ghost use Rattle.forest_roots.specs.Rows.{neighbours, odd_one, risen, staying, count_risen, row_steps, IsLifted, digests_over};

use crate::Roots;
use crate::inner::join_root;
use forest_place::is_slot;
use std::sync::ledger::Ledger;
use uo_digest::{Digest, Digester, Steps};

// So many pairs are digested at once.
const PAIRS: usize = 16;

// The last node, where it has no neighbour.
fn last_alone(nodes: &[Digest]) -> Option<Digest>
    ensures { result ≡ odd_one nodes.now }
{
    if nodes.len() % 2 == 1 {
        Some(nodes[nodes.len() - 1])
    } else {
        None
    }
}

// Puts neighbours together.
fn put_pairs(nodes: &[Digest], pairs: &mut [(Digest, Digest)])
    requires { length nodes.now ≡ 2 * length pairs.old }
    ensures { pairs.new ≡ neighbours nodes.now }
{
    'each: for i in 0..pairs.len() {
        pairs[i] = (nodes[2 * i], nodes[2 * i + 1]);
    }
}

// Puts the digests over some pairs, from one on, in the places of that many at the front of a row.
fn lift_some<D: Digester, L: Ledger>(
    nodes: &mut [Digest],
    from: usize,
    some: usize,
    steps: &mut Steps<L>,
)
    requires few { some ≤ 16 }
    requires within { 2 * from + 2 * some ≤ length nodes.old }
    ensures lifted { (start : List Digested) → IsLifted D.digest_of start nodes.old from → IsLifted D.digest_of start nodes.new (from + some) }
    ensures steps { steps.new ≡ steps.old + some }
{
    let mut room = [(Digest([0; 32]), Digest([0; 32])); PAIRS];
    let pairs = &mut room[..some];
    put_pairs(&nodes[2 * from..2 * from + 2 * some], pairs);
    D::digest_pairs(pairs, &mut nodes[from..from + some], steps);
}

// Puts the digests over all pairs at the front of a row.
fn lift<D: Digester, L: Ledger>(nodes: &mut [Digest], steps: &mut Steps<L>)
    ensures lifted { take (length nodes.old / 2) nodes.new ≡ digests_over D.digest_of (neighbours nodes.old) }
    ensures len { length nodes.new ≡ length nodes.old }
    ensures steps { steps.new ≡ steps.old + length nodes.old / 2 }
{
    let count = nodes.len() / 2;
    let mut pair = 0;
    'pairs: while pair < count {
        let some = PAIRS.min(count - pair);
        lift_some::<D, L>(nodes, pair, some, steps);
        pair += some;
    }
}

// Puts the nodes that go up at the front of a row, and gives the one that stays.
fn raise<D: Digester, L: Ledger>(nodes: &mut [Digest], steps: &mut Steps<L>) -> Option<Digest>
    ensures above { take (length nodes.old / 2) nodes.new ≡ digests_over D.digest_of (neighbours nodes.old) }
    ensures stays { result ≡ odd_one nodes.old }
    ensures len { length nodes.new ≡ length nodes.old }
    ensures steps { steps.new ≡ steps.old + length nodes.old / 2 }
{
    let stays = last_alone(nodes);
    lift::<D, L>(nodes, steps);
    stays
}

// The same, where the row's old root is joined with the first node.
fn raise_joined<D: Digester, L: Ledger>(
    root: Option<Digest>,
    nodes: &mut [Digest],
    steps: &mut Steps<L>,
) -> Option<Digest>
    requires { 0 < length nodes.old }
    ensures above { take (count_risen true (length nodes.old)) nodes.new ≡ risen D.digest_of true root nodes.old }
    ensures stays { result ≡ staying true nodes.old }
    ensures len { length nodes.new ≡ length nodes.old }
    ensures steps { steps.new ≡ steps.old + row_steps true root (length nodes.old) }
{
    let (first, others) = nodes.split_at_mut(1);
    first[0] = join_root::<D, L>(root, first[0], steps);
    raise::<D, L>(others, steps)
}

// The same for a row that may be a slot.
fn raise_row<D: Digester, L: Ledger>(
    slot: bool,
    root: Option<Digest>,
    nodes: &mut [Digest],
    steps: &mut Steps<L>,
) -> Option<Digest>
    requires { 0 < length nodes.old }
    ensures above { take (count_risen slot (length nodes.old)) nodes.new ≡ risen D.digest_of slot root nodes.old }
    ensures stays { result ≡ staying slot nodes.old }
    ensures len { length nodes.new ≡ length nodes.old }
    ensures steps { steps.new ≡ steps.old + row_steps slot root (length nodes.old) }
{
    if slot {
        raise_joined::<D, L>(root, nodes, steps)
    } else {
        raise::<D, L>(nodes, steps)
    }
}

// How many nodes so many nodes of a row give in the next one.
fn count_above(slot: bool, count: usize) -> usize
    ensures { result ≡ count_risen slot count }
{
    if slot { count.div_ceil(2) } else { count / 2 }
}

impl<D: Digester> Roots<D> {
    ghost use Rattle.forest_roots.specs.After.{with_leaves, additions_steps};

    /// Adds these digests in their order, a row of nodes after the other, so that the nodes of a row are digested side by side.
    /// What the list holds then has no meaning.
    pub fn push_all<L: Ledger>(&mut self, digests: &mut [Digest], steps: &mut Steps<L>)
        requires { self.old.leaves + length digests.old < 2 ^ 40 }
        ensures roots { self.new ≡ with_leaves D.digest_of self.old digests.old }
        ensures len { length digests.new ≡ length digests.old }
        // As many steps as these additions take one by one.
        ensures counted { steps.new ≡ steps.old + additions_steps D.digest_of self.old digests.old }
        ensures few { steps.new + count_ones self.new.leaves ≤ steps.old + length digests.old + count_ones self.old.leaves }
    {
        let added = digests.len();
        let mut count = added;
        let mut row: u8 = 0;
        while count > 0 {
            prove!(row < 40);
            let slot = is_slot(self.count, row);
            self.slots[row as usize] = raise_row::<D, L>(
                slot,
                self.slots[row as usize],
                &mut digests[..count],
                steps,
            );
            count = count_above(slot, count);
            row += 1;
        }
        self.count += added as u64;
    }
}
