//! The newest entries by their marks.
ghost use Rattle.std.specs.Prelude.{◌≡◌, ◌≢◌, ℕ, Some, None, IsSome, IfOk, OnOk, OnErr};
ghost use Rattle.std.specs.Bool.{OnTrue, OnFalse};
ghost use Rattle.output_index.specs.Buckets.{HasNoRoom, first_at};
ghost use Rattle.output_index.specs.NewestByMark.{newest_with};
ghost use Rattle.output_index.specs.Overflow.{TellsOther};

use crate::buckets::Buckets;
use crate::overflow::Overflow;
use std::alloc::Global;
use std::marker::Model;
use uo_base::NoMemory;

/// The number of the newest held entry of each mark, live or spent. A mark is there exactly as long as an entry of it is held.
///
/// Nearly all marks lie in buckets. Those of which the bucket is full lie in ordered maps, so a search among marks that someone has chosen for
/// one bucket is still no walk over them.
#[derive(Drop)]
pub(crate) struct NewestByMark {
    buckets: Buckets,
    overflow: Overflow,
}

impl Model for NewestByMark {
    ghost use Rattle.output_index.specs.NewestByMark.{MarkNumbers, AreApart};

    ghost Value = { MarkNumbers };

    ghost view = { λ n. record { table = n.buckets; overflow = n.overflow } };

    ghost invariant = { λ n. AreApart (record { table = n.buckets; overflow = n.overflow }) };
}

impl NewestByMark {
    /// No entry of any mark.
    pub fn new(alloc: Global) -> Self
        ensures { (m : ℕ) → newest_with result m ≡ None }
    {
        NewestByMark {
            buckets: Buckets::new(alloc),
            overflow: Overflow::new(alloc),
        }
    }

    /// The newest entry of a mark; None where the mark is not there.
    pub fn get(&self, mark: u64) -> Option<u64>
        ensures { result ≡ newest_with self.now mark }
    {
        match self.buckets.get(mark) {
            Some(number) => Some(number),
            None => self.overflow.get(mark),
        }
    }

    /// The same where one read tells it, and nothing where it takes a search.
    pub fn first(&self, mark: u64) -> Option<u64>
        ensures { result ≡ first_at self.now.table mark }
    {
        self.buckets.first(mark)
    }

    /// The entry is the newest of its mark from now on. The one that was the newest before is answered, if there was one. Where
    /// there is no memory, all marks tell what they told.
    pub fn put_newest(&mut self, mark: u64, number: u64) -> Result<Option<u64>, NoMemory>
        ensures before { IfOk result (λ before. before ≡ newest_with self.old mark) }
        ensures here { OnOk result (newest_with self.new mark ≡ Some number) }
        ensures others { (m : ℕ) → m ≢ mark → newest_with self.new m ≡ newest_with self.old m }
        ensures err { OnErr result (newest_with self.new mark ≡ newest_with self.old mark) }
    {
        match self.get(mark) {
            Some(before) => {
                self.put_aside(mark, number)?;
                Ok(Some(before))
            }
            None => {
                if !self.try_put(mark, number) {
                    self.put_aside(mark, number)?;
                }
                Ok(None)
            }
        }
    }

    // Puts a mark that is not there into its bucket, and answers whether that had room.
    fn try_put(&mut self, mark: u64, number: u64) -> bool
        requires { newest_with self.old mark ≡ None }
        ensures put { OnTrue result (newest_with self.new mark ≡ Some number) }
        ensures full { OnFalse result (newest_with self.new mark ≡ None) }
        ensures no_room { OnFalse result (HasNoRoom self.new.table.bits self.new.table.buckets mark) }
        ensures others { (m : ℕ) → m ≢ mark → newest_with self.new m ≡ newest_with self.old m }
    {
        self.buckets.try_put(mark, number)
    }

    // Puts a mark among those for which there is no room in their bucket.
    fn put_aside(&mut self, mark: u64, number: u64) -> Result<(), NoMemory>
        ensures here { OnOk result (newest_with self.new mark ≡ Some number) }
        ensures others { (m : ℕ) → m ≢ mark → newest_with self.new m ≡ newest_with self.old m }
        ensures err { OnErr result (newest_with self.new mark ≡ newest_with self.old mark) }
    {
        self.overflow.put_newest(mark, number)?;
        self.buckets.take(mark);
        Ok(())
    }

    /// Where the entry is the newest of its mark, the older one that it tells takes its place, and the mark is gone where it tells
    /// none. Where another is the newest, that one stays and is answered.
    pub fn take_newest(&mut self, mark: u64, number: u64, older: Option<u64>) -> Option<u64>
        requires { IsSome (newest_with self.old mark) }
        ensures other { TellsOther number (newest_with self.old mark) result }
        ensures older { result ≡ None → newest_with self.new mark ≡ older }
        ensures stays { IsSome result → newest_with self.new mark ≡ newest_with self.old mark }
        ensures others { (m : ℕ) → m ≢ mark → newest_with self.new m ≡ newest_with self.old m }
    {
        match self.buckets.take_newest(mark, number, older) {
            Some(told) if told != number => Some(told),
            Some(_) => None,
            None => self.overflow.take_newest(mark, number, older),
        }
    }
}
