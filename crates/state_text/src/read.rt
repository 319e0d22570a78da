//! Reading a state.
ghost use Rattle.std.specs.List.{AllByRecursion};
ghost use Rattle.std.specs.Prelude.{◌≡◌, ◌↔◌, ◌<◌, ◌^◌, ◌∷◌, ℕ, List, IfOk, IsErrOf, MatchOption, MatchResult};
ghost use Rattle.state_text.specs.Stored.{StateValue, IsOfVersion, IsTextOf, body_text};
ghost use Rattle.state_text.specs.Fits.{IsState, HasBody};
ghost use Rattle.state_text.specs.Cached.{state_in, IsFilled};
ghost use Rattle.state_text.specs.Reading.{claims};

use crate::fault::StateFault;
use crate::judging::judge_state;
use crate::reading::read_body;
use crate::state::StoredState;
use crate::version::split_version;
use forest_place::Naming;
use std::alloc::Global;
use std::sync::ledger::Ledger;
use uo_digest::{Digester, Steps};

// What follows the version of texts that name places so.
fn read_behind<D: Digester, L: Ledger>(
    alloc: Global,
    body: &[u8],
    naming: Naming,
    most: u64,
    steps: &mut Steps<L>,
) -> Result<StoredState<D>, StateFault>
    requires { most < 2 ^ 40 }
    ensures { MatchResult result
        (λ s. IsState D.digest_of most (state_in s) × (body.now ≡ body_text naming (state_in s)) × AllByRecursion (IsFilled D.digest_of) s.levels)
        (λ e. claims e (HasBody D.digest_of naming most body.now → ⊥)) }
{
    let state = read_body(alloc, body, naming, most)?;
    judge_state(alloc, state, most, steps)
}

/// Reads the state of a node of at most `most` entries, by the digester `D`: the whole text is that of a state, in version 1 or 2. The
/// lists of each level's cache are what its kept entries and hashes tell.
pub fn read_state<D: Digester, L: Ledger>(
    alloc: Global,
    text: &[u8],
    most: u64,
    steps: &mut Steps<L>,
) -> Result<StoredState<D>, StateFault>
    requires { most < 2 ^ 40 }
    ensures found { IfOk result (λ s. IsState D.digest_of most (state_in s) × IsTextOf (state_in s) text.now) }
    ensures filled { IfOk result (λ s. AllByRecursion (IsFilled D.digest_of) s.levels) }
    ensures none { IsErrOf result StateFault.NotAState → (s : StateValue) → IsState D.digest_of most s → IsTextOf s text.now → ⊥ }
    ensures version { (v : ℕ) → IsErrOf result (StateFault.Version v) ↔ IsOfVersion v text.now }
{
    let Some((version, body)) = split_version(b"UTXS", text) else {
        return Err(StateFault::NotAState);
    };
    let Some(naming) = Naming::of_version(version) else {
        return Err(StateFault::Version(version));
    };
    read_behind(alloc, body, naming, most, steps)
}
