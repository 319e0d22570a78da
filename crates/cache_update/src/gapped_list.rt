//! An ascending list with a gap, which goes to where the list is changed. Changes from the end of a list to its front so move each element once.
ghost use Rattle.std.specs.Prelude.{◌≡◌, ◌+◌, ◌<◌, ◌≤◌, ◌⊎◌, true, false, None, length, take, get_or, vec_len, vec_capacity};
ghost use Rattle.std.specs.Bool.{OnTrue, OnFalse};
ghost use Rattle.forest_place.specs.Places.{is_before_place};
ghost use Rattle.cache_model.specs.Lists.{AscendByPlace};
ghost use Rattle.cache_model.specs.Search.{IsSplit};
ghost use Rattle.cache_model.specs.Steps.{put as put_of};
ghost use Rattle.cache_model.specs.Undo.{change, held_key, is_same_place};
ghost use Rattle.cache_update.specs.GappedList.{EndsBefore, IsGap, around};

use crate::put::append;
use cache_model::is_same;
use forest_place::{Place, is_before};
use uo_digest::Digest;

/// The indices at which a gap begins and ends. What stands in between means nothing.
#[derive(Clone, Copy)]
pub(crate) struct Gap {
    pub(crate) from: usize,
    pub(crate) to: usize,
}

/// A gap at the end of a list, for as many more as there are, unless the list is full before. It takes no memory.
pub(crate) fn open(held: &mut Vec<(Place, Digest)>, more: &[(Place, Digest)]) -> Gap
    ensures gap { IsGap result.from result.to held.new.items }
    ensures same { around result.from result.to held.new.items ≡ held.old.items }
    ensures size { (vec_len held.old + length more.now ≤ result.to) ⊎ (vec_capacity held.old ≤ result.to) }
    ensures capacity { vec_capacity held.new ≡ vec_capacity held.old }
{
    let from = held.len();
    let free = held.capacity() - from;
    let filled = more.len().min(free);
    append(held, &more[..filled]);
    Gap {
        from,
        to: held.len(),
    }
}

// One element further to the front.
fn one_down(list: &mut [(Place, Digest)], gap: Gap) -> Gap
    requires gap { IsGap gap.from gap.to list.old }
    requires some { 0 < gap.from }
    ensures gap { IsGap result.from result.to list.new }
    ensures same { around result.from result.to list.new ≡ around gap.from gap.to list.old }
    ensures from { result.from + 1 ≡ gap.from }
    ensures to { result.to + 1 ≡ gap.to }
{
    list[gap.to - 1] = list[gap.from - 1];
    Gap {
        from: gap.from - 1,
        to: gap.to - 1,
    }
}

// One element further to the end.
fn one_up(list: &mut [(Place, Digest)], gap: Gap) -> Gap
    requires gap { IsGap gap.from gap.to list.old }
    requires some { gap.to < length list.old }
    ensures gap { IsGap result.from result.to list.new }
    ensures same { around result.from result.to list.new ≡ around gap.from gap.to list.old }
    ensures from { result.from ≡ gap.from + 1 }
    ensures to { result.to ≡ gap.to + 1 }
{
    list[gap.from] = list[gap.to];
    Gap {
        from: gap.from + 1,
        to: gap.to + 1,
    }
}

// The gap goes to the front until what is before it comes before the place.
fn go_down(list: &mut [(Place, Digest)], gap: Gap, place: Place) -> Gap
    requires gap { IsGap gap.from gap.to list.old }
    ensures gap { IsGap result.from result.to list.new }
    ensures same { around result.from result.to list.new ≡ around gap.from gap.to list.old }
    ensures size { result.to + gap.from ≡ result.from + gap.to }
    ensures before { EndsBefore (around gap.from gap.to list.old) result.from place }
{
    let mut now = gap;
    while now.from > 0 {
        if is_before(list[now.from - 1].0, place) {
            return now;
        }
        now = one_down(list, now);
    }
    now
}

// The gap goes to the end until what is behind it does not come before the place.
fn go_up(list: &mut [(Place, Digest)], gap: Gap, place: Place) -> Gap
    requires gap { IsGap gap.from gap.to list.old }
    requires ascends { AscendByPlace (around gap.from gap.to list.old) }
    requires before { EndsBefore (around gap.from gap.to list.old) gap.from place }
    ensures gap { IsGap result.from result.to list.new }
    ensures same { around result.from result.to list.new ≡ around gap.from gap.to list.old }
    ensures size { result.to + gap.from ≡ result.from + gap.to }
    ensures split { IsSplit is_before_place held_key place (around gap.from gap.to list.old) result.from }
{
    let mut now = gap;
    while now.to < list.len() {
        if !is_before(list[now.to].0, place) {
            return now;
        }
        now = one_up(list, now);
    }
    now
}

// The gap goes to where the place stands, or would stand.
fn go_to(list: &mut [(Place, Digest)], gap: Gap, place: Place) -> Gap
    requires gap { IsGap gap.from gap.to list.old }
    requires ascends { AscendByPlace (around gap.from gap.to list.old) }
    ensures gap { IsGap result.from result.to list.new }
    ensures same { around result.from result.to list.new ≡ around gap.from gap.to list.old }
    ensures size { result.to + gap.from ≡ result.from + gap.to }
    ensures split { IsSplit is_before_place held_key place (around gap.from gap.to list.old) result.from }
{
    let down = go_down(list, gap, place);
    go_up(list, down, place)
}

// Whether the place stands right behind the gap.
fn is_behind(list: &[(Place, Digest)], gap: Gap, place: Place) -> bool
    ensures there { OnTrue result ((gap.to < length list.now) × ((d : _) → is_same_place place (get_or list.now gap.to d).0 ≡ true)) }
    ensures other { OnFalse result (gap.to < length list.now → (d : _) → is_same_place place (get_or list.now gap.to d).0 ≡ false) }
{
    gap.to < list.len() && is_same(place, list[gap.to].0)
}

// Takes out what stands at the place, if anything does.
pub(crate) fn take_out(list: &mut [(Place, Digest)], gap: Gap, place: Place) -> Gap
    requires gap { IsGap gap.from gap.to list.old }
    requires ascends { AscendByPlace (around gap.from gap.to list.old) }
    ensures gap { IsGap result.from result.to list.new }
    ensures items { around result.from result.to list.new
        ≡ change is_same_place is_before_place held_key place (λ now. None) (around gap.from gap.to list.old) }
    ensures ascends { AscendByPlace (around result.from result.to list.new) }
{
    let here = go_to(list, gap, place);
    if is_behind(list, here, place) {
        Gap {
            from: here.from,
            to: here.to + 1,
        }
    } else {
        here
    }
}

// Puts a digest at the place.
pub(crate) fn put_in(list: &mut [(Place, Digest)], gap: Gap, place: Place, digest: Digest) -> Gap
    requires gap { IsGap gap.from gap.to list.old }
    requires room { gap.from < gap.to }
    requires ascends { AscendByPlace (around gap.from gap.to list.old) }
    ensures gap { IsGap result.from result.to list.new }
    ensures items { around result.from result.to list.new ≡ put_of place digest (around gap.from gap.to list.old) }
    ensures ascends { AscendByPlace (around result.from result.to list.new) }
{
    let here = go_to(list, gap, place);
    if is_behind(list, here, place) {
        list[here.to] = (place, digest);
        here
    } else {
        list[here.to - 1] = (place, digest);
        Gap {
            from: here.from,
            to: here.to - 1,
        }
    }
}

// The list without the gap, which goes to the end.
fn shut(list: &mut [(Place, Digest)], gap: Gap) -> usize
    requires { IsGap gap.from gap.to list.old }
    ensures within { result ≤ length list.new }
    ensures same { take result list.new ≡ around gap.from gap.to list.old }
{
    let mut now = gap;
    while now.to < list.len() {
        now = one_up(list, now);
    }
    now.from
}

/// The list without the gap.
pub(crate) fn close(held: &mut Vec<(Place, Digest)>, gap: Gap)
    requires { IsGap gap.from gap.to held.old.items }
    ensures items { held.new.items ≡ around gap.from gap.to held.old.items }
    ensures capacity { vec_capacity held.new ≡ vec_capacity held.old }
{
    let len = shut(held, gap);
    held.truncate(len);
}
