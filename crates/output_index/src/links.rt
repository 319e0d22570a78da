//! The held entries of one mark are linked, live or spent: each tells the next older one, and of each mark the newest is told.
ghost use Rattle.std.specs.Prelude.{◌≡◌, ◌<◌, Some, IsSome};
ghost use Rattle.output_index.specs.Entries.{held_in, entry_at, older_in, removed};
ghost use Rattle.output_index.specs.Links.{mark_at, AreLinked, IsChained};

use crate::entries::Entries;
use crate::newest_by_mark::NewestByMark;

/// All entries but this one, which has this mark, are linked from now on, so it may be taken out.
pub(crate) fn unlink(entries: &mut Entries, marks: &mut NewestByMark, number: u64, mark: u64)
    requires chained { IsChained entries.old marks.old }
    requires mark { mark_at entries.old number ≡ Some mark }
    ensures chained { IsChained (removed number entries.new) marks.new }
    ensures same { held_in entries.new ≡ held_in entries.old }
{
    let entry = entries.at(number);
    let older = entry.older;
    match marks.take_newest(mark, number, older) {
        Some(newest) => {
            let newer = next_newer(entries, newest, number);
            entries.set_older(newer, older);
        }
        None => {}
    }
}

// The entry that tells this one as the next older, which is found by going down from the newest of the mark.
fn next_newer(entries: &Entries, newest: u64, number: u64) -> u64
    requires linked { AreLinked entries.now }
    requires held { IsSome (entry_at number entries.now) }
    requires same { mark_at entries.now newest ≡ mark_at entries.now number }
    requires below { number < newest }
    ensures { older_in (entry_at result entries.now) ≡ Some number }
{
    let mut at = newest;
    loop {
        match entries.at(at).older {
            Some(older) if older > number => at = older,
            _ => return at,
        }
    }
}
