//! What a covered place is made of.
ghost use Rattle.std.specs.Prelude.{◌≡◌};
ghost use Rattle.proof_verify.specs.Batches.{is_half_below, is_below};

// A half of a place: the covered place at an index of the list of covered places, or the needed place of a rank.
#[derive(Clone, Copy)]
pub(crate) enum Half {
    Covered(usize),
    Needed(usize),
}

// A covered place is the target at an index, or is made of a left and a right half.
#[derive(Clone, Copy)]
pub(crate) enum PlaceSource {
    Target(usize),
    Halves(Half, Half),
}

// Whether the half is there as soon as the first `made` covered places are.
fn is_half_there(half: Half, made: usize) -> bool
    ensures { result ≡ is_half_below made half }
{
    match half {
        Half::Covered(i) => i < made,
        Half::Needed(_) => true,
    }
}

// Whether the place can be made as soon as the first `made` covered places are.
pub(crate) fn can_be_made(source: PlaceSource, made: usize) -> bool
    ensures { result ≡ is_below made source }
{
    match source {
        PlaceSource::Target(_) => true,
        PlaceSource::Halves(left, right) => is_half_there(left, made) && is_half_there(right, made),
    }
}
