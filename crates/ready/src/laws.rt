// What holds of every ready line, as the contracts of two functions over any of them.
ghost use Rattle.std.specs.Prelude.{◌≡◌};
ghost use Rattle.arrayvec.specs.ArrayVec.{array_vec_len};
ghost use Rattle.ready.specs.Tags.{entry_count, no_entries};
ghost use Rattle.ready.specs.Least.{IsLeast};
ghost use Rattle.ready.specs.Entries.{EachOnce, Rising};

use crate::entry::Entry;
use crate::line::ReadyLine;
use arrayvec::ArrayVec;
use calls::session::SESSIONS;

// The entry that is at most every entry of the line.
#[tactic(auto, using(crate::specs::Leasts::is_least_from))]
pub fn first_in_order<R: ReadyLine>(line: &R) -> Option<Entry>
    ensures { IsLeast (R.ReadyLine.tags line.now) result }
{
    line.least()
}

// Empties the line, and answers its entries in order.
#[tactic(auto, using(crate::proofs::Drops::taken_none, crate::proofs::Drops::taken_room, crate::proofs::Drops::taken_fewer, crate::proofs::Drops::taken_more, crate::proofs::Drops::left_empty, crate::proofs::Drops::left_all, crate::proofs::Drops::left_count))]
pub fn drop_all<R: ReadyLine>(line: &mut R) -> ArrayVec<Entry, SESSIONS>
    ensures count { array_vec_len result ≡ entry_count (R.ReadyLine.tags line.old) }
    ensures rising { Rising result.items }
    ensures all { EachOnce result.items (R.ReadyLine.tags line.old) }
    ensures emptied { R.ReadyLine.tags line.new ≡ no_entries }
{
    let mut entries = ArrayVec::new();
    while let Some(entry) = line.drop_least() {
        entries.push(entry);
    }
    entries
}
