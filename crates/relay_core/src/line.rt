//! Serials of a chain, of which the newest stands last.
ghost use Rattle.std.specs.Prelude.{◌≡◌, ◌+◌, ◌<◌, ◌≤◌, ℕ, ◌∷◌, length, take, drop, reverse, slice_get, slice_index, Some, None, false, is_some};
ghost use Rattle.std.specs.Prelude.{IfSome, OnErr};
ghost use Rattle.std.specs.Vec.{vec_len, vec_capacity};
ghost use Rattle.relay_core.specs.World.{newest_serial, is_on, fork_index, after_on, next_or_same, reply_to};
ghost use Rattle.relay_core.specs.Rising.{IsRising};

use crate::act::Kind;
use crate::store::Reply;

// The newest.
pub(crate) fn newest(serials: &[u64]) -> u64
    ensures { result ≡ newest_serial (reverse serials.now) }
{
    match serials.last() {
        Some(serial) => *serial,
        None => 0,
    }
}

// Takes so many of the newest off.
pub(crate) fn cut(serials: &mut Vec<u64>, count: u32)
    ensures is { reverse serials.new.items ≡ drop count (reverse serials.old.items) }
    ensures front { serials.new.items ≡ take (length serials.new.items) serials.old.items }
    ensures few { length serials.new.items ≤ length serials.old.items }
{
    let left = serials.len().saturating_sub(count as usize);
    serials.truncate(left);
}

// Puts one more in front of the newest. Of a hundred and one the oldest is let go.
pub(crate) fn put(serials: &mut Vec<u64>, serial: u64)
    requires room { vec_len serials.old < vec_capacity serials.old }
    requires few { length serials.old.items ≤ 101 }
    ensures is { reverse serials.new.items ≡ take 101 (serial ∷ reverse serials.old.items) }
    ensures few { length serials.new.items ≤ 101 }
{
    if serials.len() > 100 {
        serials.remove(0);
    }
    serials.push_reserved(serial);
}

// Where a serial stands.
fn place_of(chain: &[u64], serial: u64) -> Option<usize>
    requires { (n : ℕ) × IsRising n chain.now }
    ensures some { IfSome result (λ i. (i < length chain.now) × (slice_index chain.now i ≡ serial)) }
    ensures none { result ≡ None → is_on (reverse chain.now) serial ≡ false }
{
    match chain.binary_search(&serial) {
        Ok(i) => Some(i),
        Err(_) => None,
    }
}

// The one that comes after a serial, if that is on the chain.
fn next(chain: &[u64], first: u64) -> Kind
    requires { (n : ℕ) × IsRising n chain.now }
    ensures { result ≡ next_or_same (after_on (reverse chain.now) first) }
{
    let Some(i) = place_of(chain, first) else {
        return Kind::Same;
    };
    if i + 1 < chain.len() {
        Kind::Next {
            serial: chain[i + 1],
        }
    } else {
        Kind::Same
    }
}

// Whether a serial is on the chain.
fn has(chain: &[u64], serial: u64) -> bool
    requires { (n : ℕ) × IsRising n chain.now }
    ensures { result ≡ is_on (reverse chain.now) serial }
{
    place_of(chain, serial).is_some()
}

// The least number of newer serials before one that is on the chain.
fn met(chain: &[u64], serials: &[u64]) -> Option<usize>
    requires { (n : ℕ) × IsRising n chain.now }
    ensures is { result ≡ fork_index (reverse chain.now) (reverse serials.now) }
    ensures within { IfSome result (λ k. k < length serials.now) }
{
    let count = serials.len();
    for k in 0..count {
        if has(chain, serials[count - 1 - k]) {
            return Some(k);
        }
    }
    None
}

// What is answered to one who has these serials.
pub(crate) fn reply(chain: &[u64], serials: &[u64]) -> Reply
    requires rising { (n : ℕ) × IsRising n chain.now }
    requires few { length serials.now ≤ 101 }
    ensures { result ≡ reply_to (reverse chain.now) (reverse serials.now) }
{
    let first = newest(serials);
    let kind = match met(chain, serials) {
        None => Kind::Lost,
        Some(0) => next(chain, first),
        Some(k) => Kind::Back { count: k as u32 },
    };
    Reply { first, kind }
}
