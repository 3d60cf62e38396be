// What a ready line is.
ghost use Rattle.std.specs.Prelude.{◌≡◌, length};
ghost use Rattle.ready.specs.Tags.{Tags, free_answer, add_answer, added, least_of, without, no_entries, entry_count};

use crate::entry::Entry;
use calls::refusal::Refusal;
pub use calls::session::place_of;

// A set of entries, at most one for each of the sessions 0 to 63. What a call refuses leaves it as it was.
pub trait ReadyLine {
    // For each session in turn the tag of its entry, if it has one.
    ghost tags: { Self → Tags };

    // Adds an entry. A session above 63 is refused, and then one that has an entry.
    fn add(&mut self, tag: u64, session: u32) -> Result<(), Refusal>
        ensures answer { result ≡ add_answer (tags self.old) session }
        ensures after { tags self.new ≡ added (tags self.old) tag session };

    // The entry that comes first.
    fn least(&self) -> Option<Entry>
        ensures { result ≡ least_of (tags self.now) };

    // Takes out the entry that comes first.
    fn drop_least(&mut self) -> Option<Entry>
        ensures answer { result ≡ least_of (tags self.old) }
        ensures after { tags self.new ≡ without (tags self.old) result };

    // Takes out every entry.
    fn clear(&mut self)
        ensures { tags self.new ≡ no_entries };

    // The number of entries.
    fn count(&self) -> u32
        ensures { result ≡ entry_count (tags self.now) };

    ghost sessions: { (x : Self) → length (tags x) ≡ 64 };
}

// Refuses a second entry of a session.
pub fn check_free(has_entry: bool) -> Result<(), Refusal>
    ensures { result ≡ free_answer has_entry }
{
    if has_entry {
        return Err(Refusal::DuplicateEntry);
    }
    Ok(())
}
