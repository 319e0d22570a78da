//! An entry in a box of its own.
ghost use Rattle.std.specs.Prelude.{◌≡◌, true, None, IfOk, OnOk};
ghost use Rattle.output_index.specs.Scripts.{without_script};

use crate::entry::Entry;
use crate::stored_record::StoredRecord;
use leaf_record::RecordView;
use std::alloc::Global;
use std::marker::Model;
use uo_base::NoMemory;

/// An entry in a box of its own, so that a number of which nothing is held takes little room.
#[derive(Drop)]
pub(crate) struct BoxedEntry {
    entry: Box<Entry>,
}

impl Model for BoxedEntry {
    ghost use Rattle.output_index.specs.declared.entry.Entry.{Entry};

    ghost Value = { Entry };

    ghost view = { λ b. b.entry.value };
}

impl BoxedEntry {
    ghost use Rattle.output_index.specs.declared.entry.Entry.{Entry};
    ghost use Rattle.output_index.specs.Entries.{set_live, set_older};

    /// A new box with an output that is live and tells no older one.
    pub fn new(alloc: Global, leaf: &RecordView<'_>) -> Result<Self, NoMemory>
        ensures { IfOk result (λ boxed. boxed ≡ record { leaf = leaf.now; live = true; older = None }) }
    {
        let entry = Entry {
            leaf: StoredRecord::copied(alloc, leaf)?,
            live: true,
            older: None,
        };
        Ok(BoxedEntry {
            entry: Box::new(alloc, entry)?,
        })
    }

    pub fn entry(&self) -> &Entry
        ensures { result.now ≡ self.now }
    {
        &self.entry
    }

    /// This output is in the box from now on, live, and tells no older one. It is written where it stands, and memory is asked for only where
    /// its script is long.
    pub fn fill(&mut self, alloc: Global, leaf: &RecordView<'_>) -> Result<(), NoMemory>
        ensures { OnOk result (self.new ≡ record { leaf = leaf.now; live = true; older = None }) }
    {
        self.entry.leaf.set(alloc, leaf)?;
        self.entry.live = true;
        self.entry.older = None;
        Ok(())
    }

    /// No script is in the box from now on.
    pub fn clear_script(&mut self)
        ensures { self.new ≡ record self.old { leaf = without_script self.old.leaf } }
    {
        self.entry.leaf.clear_script();
    }

    pub fn set_live(&mut self, live: bool)
        ensures { self.new ≡ set_live live self.old }
    {
        self.entry.live = live;
    }

    pub fn set_older(&mut self, older: Option<u64>)
        ensures { self.new ≡ set_older older self.old }
    {
        self.entry.older = older;
    }
}
