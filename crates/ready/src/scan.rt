// A ready line that looks through a table of the tags.
ghost use Rattle.std.specs.Prelude.{◌≡◌, None, fold, length};
ghost use Rattle.std.specs.List.{range_with_len, zip};
ghost use Rattle.ready.specs.Tags.{earlier, entry_of, entry_count, no_entries};

use crate::entry::{Entry, at_most};
use crate::line::{ReadyLine, check_free};
use calls::refusal::Refusal;
use calls::session::{SESSIONS, place_of};
use std::marker::Model;

// The table: for each session in turn the tag of its entry, if it has one.
#[derive(Drop)]
pub struct Scan {
    tags: [Option<u64>; SESSIONS],
    ghost sessions: { length tags ≡ 64 },
}

impl Model for Scan {
    ghost use Rattle.ready.specs.TagTable.{TagTable};

    ghost Value = { TagTable };

    ghost view = { λ scan. record { tags = scan.tags; sessions = scan.sessions } };
}

impl Scan {
    // A line with no entries.
    pub fn new() -> Scan
        ensures { result.tags ≡ no_entries }
    {
        Scan {
            tags: [None; SESSIONS],
        }
    }
}

// The entry of a session, if it has one.
fn entry_of(session: u32, tag: Option<u64>) -> Option<Entry>
    ensures { result ≡ entry_of session tag }
{
    tag.map(|tag| (tag, session))
}

// Of two entries the one that comes first.
fn earlier(first: Option<Entry>, second: Option<Entry>) -> Option<Entry>
    ensures { result ≡ earlier first second }
{
    let Some(b) = second else {
        return first;
    };
    match first {
        Some(a) if at_most(a, b) => first,
        _ => second,
    }
}

// The entry that comes first.
fn least_of(tags: &[Option<u64>]) -> Option<Entry>
    ensures { result ≡ fold (λ best p. earlier best (entry_of p.0 p.1)) None (zip (range_with_len 0 64) tags.now) }
{
    (0..SESSIONS as u32).zip(tags).fold(
        None,
        |best, (session, tag)| earlier(best, entry_of(session, *tag)),
    )
}

// How many sessions have an entry.
fn entry_count(tags: &[Option<u64>]) -> usize
    ensures { result ≡ entry_count tags.now }
{
    let mut count = 0;
    for tag in tags {
        if tag.is_some() {
            count += 1;
        }
    }
    count
}

impl ReadyLine for Scan {
    ghost tags = { λ table. table.tags };

    ghost sessions = { λ table. table.sessions };

    fn add(&mut self, tag: u64, session: u32) -> Result<(), Refusal> {
        let place = place_of(session)?;
        let held = self.tags[place];
        check_free(held.is_some())?;
        self.tags[place] = Some(tag);
        Ok(())
    }

    #[tactic(auto, using(crate::proofs::Scans::least_folded))]
    fn least(&self) -> Option<Entry> {
        least_of(&self.tags)
    }

    #[tactic(auto, using(crate::specs::Leasts::least_within))]
    fn drop_least(&mut self) -> Option<Entry> {
        let (tag, session) = self.least()?;
        self.tags[session as usize] = None;
        Some((tag, session))
    }

    fn clear(&mut self) {
        self.tags = [None; SESSIONS];
    }

    fn count(&self) -> u32 {
        entry_count(&self.tags) as u32
    }
}
