//! A mark between the steps of its block, and once the block is done.
ghost use Rattle.std.specs.Prelude.{◌≡◌, ◌≤◌, vec_capacity};
ghost use Rattle.leaf_cache.specs.Parted.{Parted};
ghost use Rattle.cache_update.specs.Marks.{Fits, kept_back, held_back, HasRoomFor, HasRoomLeft};

use crate::differ::{note_all_gained, note_all_lost, note_all_moved};
use crate::mark::{BlockRoom, Mark};
use leaf_cache::Parts;

impl Mark {
    // Goes on with the block. Once no addition is left the mark has what differs, and the room is freed.
    pub(crate) fn go_on(&mut self, room: Box<BlockRoom>, parts: &Parts)
        requires { HasRoomFor self.old parts.now room.value }
        ensures kept { kept_back self.new parts.now.kept ≡ kept_back self.old parts.now.kept }
        ensures held { held_back self.new parts.now.held ≡ room.value.before.items }
        ensures left { HasRoomLeft self.new parts.now self.new.room }
        ensures leaves { self.new.leaves ≡ self.old.leaves }
        ensures adds { self.new.adds ≡ self.old.adds }
        ensures watched { self.new.watched ≡ self.old.watched }
    {
        if self.adds == 0 {
            self.settle(Box::into_inner(room), parts);
        } else {
            self.room = Some(room);
        }
    }

    // What differs from the lists when the block began, and nothing else.
    fn settle(&mut self, room: BlockRoom, parts: &Parts)
        requires room { HasRoomFor self.old parts.now room }
        requires done { self.old.adds ≡ 0 }
        ensures kept { kept_back self.new parts.now.kept ≡ kept_back self.old parts.now.kept }
        ensures held { held_back self.new parts.now.held ≡ room.before.items }
        ensures left { HasRoomLeft self.new parts.now self.new.room }
        ensures leaves { self.new.leaves ≡ self.old.leaves }
        ensures adds { self.new.adds ≡ self.old.adds }
        ensures watched { self.new.watched ≡ self.old.watched }
        ensures taken_room { vec_capacity self.new.taken ≡ vec_capacity self.old.taken }
        ensures added_room { vec_capacity self.new.added ≡ vec_capacity self.old.added }
        ensures lost_room { vec_capacity room.lost ≤ vec_capacity self.new.lost }
        ensures gained_room { vec_capacity room.gained ≤ vec_capacity self.new.gained }
        ensures moved_room { vec_capacity room.moved ≤ vec_capacity self.new.stood }
    {
        let BlockRoom {
            before,
            mut lost,
            mut gained,
            mut moved,
            ..
        } = room;
        note_all_lost(&mut lost, &parts.held, &before);
        note_all_gained(&mut gained, &parts.held, &before);
        note_all_moved(&mut moved, &parts.kept, &self.stood);
        self.lost = lost;
        self.gained = gained;
        self.stood = moved;
        self.room = None;
    }

    /// Gives back the memory that the mark does not need any more, once its block is done. A mark that is kept for long is small then. Where the
    /// allocator can not make a list smaller, that stays as it is.
    pub fn shrink(&mut self)
        ensures kept_back { (ks : _) → kept_back self.new ks ≡ kept_back self.old ks }
        ensures held_back { (hs : _) → held_back self.new hs ≡ held_back self.old hs }
        ensures fits { (p : Parted) → Fits self.old p → Fits self.new p }
        ensures leaves { self.new.leaves ≡ self.old.leaves }
        ensures adds { self.new.adds ≡ self.old.adds }
        ensures watched { self.new.watched ≡ self.old.watched }
        ensures room { self.new.room ≡ self.old.room }
    {
        if self.room.is_some() {
            return;
        }
        self.taken.shrink_to_fit();
        self.stood.shrink_to_fit();
        self.added.shrink_to_fit();
        self.lost.shrink_to_fit();
        self.gained.shrink_to_fit();
    }
}
