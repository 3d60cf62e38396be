// A ready line that keeps its entries in a binary heap.
ghost use Rattle.std.specs.Prelude.{◌≡◌, ◌<◌, [], ◌∷◌, ◌++◌, false, length, replicate};
ghost use Rattle.std.specs.List.Sorted.{IsPermutation};
ghost use Rattle.arrayvec.specs.ArrayVec.{array_vec_len};
ghost use Rattle.ready.specs.Heaps.{HeapOrdered};
ghost use Rattle.ready.specs.Tags.{no_entries};

use crate::entry::Entry;
use crate::line::{ReadyLine, check_free};
use crate::moves::{move_down, move_up};
use arrayvec::ArrayVec;
use calls::refusal::Refusal;
use calls::session::{SESSIONS, place_of};
use std::marker::Model;

// The entries lie in heap order. For each session `present` says whether it has one.
#[derive(Drop)]
pub struct Heap {
    entries: ArrayVec<Entry, SESSIONS>,
    present: [bool; SESSIONS],
}

impl Model for Heap {
    ghost use Rattle.ready.specs.TagTable.{TagTable};

    ghost Value = { TagTable };

    ghost use Rattle.ready.specs.Heaps.{IsReadyHeap, table_of};

    ghost view = { λ heap. table_of heap.entries.items };

    ghost invariant = { λ heap. IsReadyHeap heap.entries.items heap.present };
}

impl Heap {
    // A line with no entries.
    #[tactic(auto, using(crate::proofs::Steps::no_tags))]
    pub fn new() -> Heap
        ensures { result.tags ≡ no_entries }
    {
        Heap {
            entries: ArrayVec::new(),
            present: none_present(),
        }
    }
}

// The table in which no session has an entry.
fn none_present() -> [bool; SESSIONS]
    ensures { result ≡ replicate 64 false }
{
    [false; SESSIONS]
}

// Puts an entry into a heap.
#[tactic(auto, using(crate::proofs::Steps::refill_same))]
fn put(entries: &mut ArrayVec<Entry, SESSIONS>, entry: Entry)
    requires room { array_vec_len entries.old < 64 }
    requires ordered { HeapOrdered 1 (array_vec_len entries.old) entries.old.items }
    ensures len { array_vec_len entries.new ≡ length (entries.old.items ++ entry ∷ []) }
    ensures grown { IsPermutation (entries.old.items ++ entry ∷ []) entries.new.items }
    ensures ordered { HeapOrdered 1 (array_vec_len entries.new) entries.new.items }
{
    entries.push(entry);
    move_up(entries);
}

impl ReadyLine for Heap {
    ghost tags = { λ table. table.tags };

    ghost sessions = { λ table. table.sessions };

    #[tactic(auto, using(crate::proofs::Steps::heap_room, crate::proofs::Steps::heap_added, crate::proofs::Steps::tags_added))]
    fn add(&mut self, tag: u64, session: u32) -> Result<(), Refusal> {
        let place = place_of(session)?;
        check_free(self.present[place])?;
        self.present[place] = true;
        put(&mut self.entries, (tag, session));
        Ok(())
    }

    #[tactic(auto, using(crate::proofs::Steps::heap_least))]
    fn least(&self) -> Option<Entry> {
        self.entries.first().copied()
    }

    #[tactic(auto, using(crate::specs::Leasts::least_within, crate::proofs::Steps::refill_same, crate::proofs::Steps::heap_some, crate::proofs::Steps::drop_ordered, crate::proofs::Steps::heap_dropped, crate::proofs::Steps::tags_dropped))]
    fn drop_least(&mut self) -> Option<Entry> {
        let (tag, session) = self.least()?;
        self.present[session as usize] = false;
        self.entries.swap_remove(0);
        move_down(&mut self.entries);
        Some((tag, session))
    }

    fn clear(&mut self) {
        *self = Heap::new();
    }

    fn count(&self) -> u32 {
        self.entries.len() as u32
    }
}
