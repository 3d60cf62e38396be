// A ready line over a sorted vector.
ghost use Rattle.std.specs.Prelude.{◌≡◌, length};
ghost use Rattle.ready.specs.Tags.{no_entries};

use crate::order::insert;
use arrayvec::ArrayVec;
use calls::refusal::Refusal;
use calls::session::{SESSIONS, place_of};
use ready::entry::Entry;
use ready::line::{ReadyLine, check_free};
use std::marker::Model;

// The tag of each session that has an entry, and the same entries once more, the least last.
#[derive(Drop)]
pub struct SortedLine {
    tags: [Option<u64>; SESSIONS],
    entries: ArrayVec<Entry, SESSIONS>,
    ghost sessions: { length tags ≡ 64 },
}

impl Model for SortedLine {
    ghost use Rattle.ready.specs.TagTable.{TagTable};

    ghost Value = { TagTable };

    ghost use Rattle.sorted_ready.specs.Falling.{IsSortedLine};

    ghost view = { λ line. record { tags = line.tags; sessions = line.sessions } };

    ghost invariant = { λ line. IsSortedLine line.tags line.entries.items };
}

impl SortedLine {
    // A line with no entries.
    pub fn new() -> SortedLine
        ensures { result.tags ≡ no_entries }
    {
        SortedLine {
            tags: [None; SESSIONS],
            entries: ArrayVec::new(),
        }
    }
}

impl ReadyLine for SortedLine {
    ghost tags = { λ table. table.tags };

    ghost sessions = { λ table. table.sessions };

    #[tactic(auto, using(crate::proofs::Inserts::line_room, crate::proofs::Inserts::line_added, crate::proofs::Inserts::tags_added))]
    fn add(&mut self, tag: u64, session: u32) -> Result<(), Refusal> {
        let place = place_of(session)?;
        let current = self.tags[place];
        check_free(current.is_some())?;
        insert(&mut self.entries, (tag, session));
        self.tags[place] = Some(tag);
        Ok(())
    }

    #[tactic(auto, using(crate::proofs::Falls::last_least))]
    fn least(&self) -> Option<Entry> {
        self.entries.last().copied()
    }

    #[tactic(auto, using(crate::proofs::Falls::last_least, crate::proofs::Falls::last_within, crate::proofs::Falls::line_dropped))]
    fn drop_least(&mut self) -> Option<Entry> {
        let (tag, session) = self.entries.pop()?;
        self.tags[session as usize] = None;
        Some((tag, session))
    }

    fn clear(&mut self) {
        *self = SortedLine::new();
    }

    fn count(&self) -> u32 {
        self.entries.len() as u32
    }
}
