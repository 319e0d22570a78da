//! What the sweep carries upwards.
ghost use Rattle.std.specs.Prelude.{◌≡◌, length, option_copied};
ghost use Rattle.proof_verify.specs.PlaceNodes.{half_node, IsHalfWithin};

use crate::place_source::Half;
use uo_digest::Digest;

// The digest of a covered place, and that of what is left of it after the deletion. None where it is gone.
#[derive(Clone, Copy)]
pub(crate) struct PlaceNode {
    pub digest: Digest,
    pub left: Option<Digest>,
}

// The digest of a half, and that of what is left of it. A needed place is not gone.
pub(crate) fn half<'n>(
    nodes: &'n [PlaceNode],
    hashes: &'n [Digest],
    half: Half,
) -> (&'n Digest, Option<&'n Digest>)
    requires { IsHalfWithin (length nodes.now) (length hashes.now) half }
    ensures digest { result.0.now ≡ (half_node nodes.now hashes.now half).digest }
    ensures left { option_copied result.1 ≡ (half_node nodes.now hashes.now half).left }
{
    match half {
        Half::Covered(i) => (&nodes[i].digest, nodes[i].left.as_ref()),
        Half::Needed(rank) => (&hashes[rank], Some(&hashes[rank])),
    }
}
