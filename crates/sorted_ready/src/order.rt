// Entries in order, the least last: a new one is put in where it belongs.
ghost use Rattle.std.specs.Prelude.{◌≡◌, ℕ, ◌<◌, ◌≤◌, [], ◌∷◌, ◌++◌, not, length};
ghost use Rattle.std.specs.List.Sorted.{IsPermutation};
ghost use Rattle.arrayvec.specs.ArrayVec.{array_vec_len};
ghost use Rattle.ready.specs.Order.{at_most, AtMost, Before};
ghost use Rattle.ready.specs.Entries.{entry_at};
ghost use Rattle.sorted_ready.specs.Falling.{Falling};

use arrayvec::ArrayVec;
use calls::session::SESSIONS;
use ready::entry::{Entry, at_most};

// Whether the first comes after the second.
fn is_after(first: Entry, second: Entry) -> bool
    ensures { result ≡ not (at_most first second) }
{
    !at_most(first, second)
}

// The place of the first entry that is at most the new one: there the new one belongs.
fn place_among(entries: &ArrayVec<Entry, SESSIONS>, new: Entry) -> usize
    requires { Falling entries.now.items }
    ensures within { result ≤ array_vec_len entries.now }
    ensures before { (k : ℕ) → k < result → Before new (entry_at entries.now.items k) }
    ensures after { result < array_vec_len entries.now → AtMost (entry_at entries.now.items result) new }
{
    entries.partition_point(|entry| is_after(*entry, new))
}

// Puts the new entry in where it belongs.
#[tactic(auto, using(crate::proofs::Inserts::grown_by, crate::proofs::Inserts::inserted_falling))]
pub(crate) fn insert(entries: &mut ArrayVec<Entry, SESSIONS>, new: Entry)
    requires room { array_vec_len entries.old < 64 }
    requires falling { Falling entries.old.items }
    ensures len { array_vec_len entries.new ≡ length (entries.old.items ++ new ∷ []) }
    ensures grown { IsPermutation (entries.old.items ++ new ∷ []) entries.new.items }
    ensures falling { Falling entries.new.items }
{
    let place = place_among(entries, new);
    entries.insert(place, new);
}
