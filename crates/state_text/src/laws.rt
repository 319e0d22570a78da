//! What holds of states. There is no code here.
ghost use Rattle.state_text.specs.Told.{HeldIsKnown};
ghost use Rattle.state_text.specs.Cached.{OneFilling, StandingIsStored, StoredIsStanding};
ghost use Rattle.state_text.specs.Reached.{ReachedIsHistory};
ghost use Rattle.state_text.specs.OfHistory.{HistoryHasState, OneState};

/// What a node that holds every output stores is the state of a node: the live entries with a watched script, and the digests
/// that stand where a proof of them needs one.
pub fn history_has_state()
    ensures { HistoryHasState }
{}

/// A text is that of one state.
pub fn one_state()
    ensures { OneState }
{}

/// What the level of a node that holds every output tells of its forest is what is known there.
pub fn held_is_known()
    ensures { HeldIsKnown }
{}

/// However it judges blocks, a node that holds every output has such levels after any events whose blocks have texts.
pub fn reached_is_history()
    ensures { ReachedIsHistory }
{}

/// What is cached is told by what is stored: two levels of which the same is stored have the same lists.
pub fn one_filling()
    ensures { OneFilling }
{}

/// A level that stands for one of a node that holds every output is stored as that one is.
pub fn standing_is_stored()
    ensures { StandingIsStored }
{}

/// What is read of the state of a node that holds every output stands for it.
pub fn stored_is_standing()
    ensures { StoredIsStanding }
{}
