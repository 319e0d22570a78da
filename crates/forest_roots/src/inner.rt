//! The digest of an inner node, and of a root that is joined.
ghost use Rattle.std.specs.Prelude.{◌≡◌, ◌+◌, is_some, if◌then◌else◌};
ghost use Rattle.forest_model.specs.Content.{pair as pair_of};
ghost use Rattle.forest_model.specs.Addition.{join_root as join_of};

use std::sync::ledger::Ledger;
use uo_digest::{Digest, Digester, Steps};

/// The digest of the 64 bytes of the left digest and the right one.
///
/// It is one function for all callers, so that digests alone take as long as they do where they are needed.
#[inline(never)]
pub fn pair<D: Digester, L: Ledger>(left: Digest, right: Digest, steps: &mut Steps<L>) -> Digest
    ensures value { result ≡ pair_of D.digest_of left right }
    ensures step { steps.new ≡ steps.old + 1 }
{
    D::digest_pair(left, right, steps)
}

// What is carried on from a root: an empty one takes no digest.
pub(crate) fn join_root<D: Digester, L: Ledger>(
    root: Option<Digest>,
    carried: Digest,
    steps: &mut Steps<L>,
) -> Digest
    ensures value { result ≡ join_of D.digest_of root carried }
    ensures steps { steps.new ≡ steps.old + (if is_some root then 1 else 0) }
{
    match root {
        Some(left) => pair::<D, L>(left, carried, steps),
        None => carried,
    }
}
