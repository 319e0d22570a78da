//! Watched scripts.
ghost use Rattle.std.specs.Prelude.{◌≡◌, map, length, IfOk, MatchResult};
ghost use Rattle.leaf_cache.specs.Watched.{IsScript, AreWatched};
ghost use Rattle.state_text.specs.Reading.{claims, Judges};
ghost use Rattle.state_text.specs.Ordered.{ScriptsRise, AreScripts};

use crate::fault::StateFault;
use leaf_cache::Watch;
use std::alloc::Global;
use uo_base::NoMemory;

// Each comes before the next one.
fn judge_order(scripts: &[Vec<u8>]) -> Result<(), StateFault>
    ensures { Judges result (ScriptsRise (map (λ s. s.items) scripts.now)) }
{
    let mut i = 1;
    while i < scripts.len() {
        if !scripts[i - 1].cmp(&scripts[i]).is_lt() {
            return Err(StateFault::NotAState);
        }
        i += 1;
    }
    Ok(())
}

// There are at most 10,000 different ones in ascending order, each of 1 to 10,000 bytes.
fn judge_scripts(scripts: &[Vec<u8>]) -> Result<(), StateFault>
    ensures { Judges result (AreScripts (map (λ s. s.items) scripts.now)) }
{
    if scripts.len() > 10_000 {
        return Err(StateFault::NotAState);
    }
    for script in scripts {
        if script.is_empty() || script.len() > 10_000 {
            return Err(StateFault::NotAState);
        }
    }
    judge_order(scripts)
}

// These scripts as a list.
fn listed(alloc: Global, scripts: &[Vec<u8>]) -> Result<Watch, NoMemory>
    requires { AreScripts (map (λ s. s.items) scripts.now) }
    ensures { IfOk result (λ watch. watch ≡ map (λ s. s.items) scripts.now) }
{
    let mut watch = Watch::empty(alloc);
    for script in scripts {
        watch.insert(alloc, script)?;
    }
    Ok(watch)
}

/// The list of these scripts, where there are at most 10,000, each of 1 to 10,000 bytes, and each comes before the next one.
pub(crate) fn watch_of(alloc: Global, scripts: &[Vec<u8>]) -> Result<Watch, StateFault>
    ensures { MatchResult result (λ watch. AreWatched (map (λ s. s.items) scripts.now) × (watch ≡ map (λ s. s.items) scripts.now))
        (λ e. claims e (AreWatched (map (λ s. s.items) scripts.now) → ⊥)) }
{
    judge_scripts(scripts)?;
    Ok(listed(alloc, scripts)?)
}
