// Moving one entry of a binary heap to its place. The children of place k are the places 2k + 1 and 2k + 2.
ghost use Rattle.std.specs.Prelude.{◌≡◌, ℕ, ◌+◌, ◌-◌, ◌*◌, ◌<◌, length, if◌then◌else◌};
ghost use Rattle.std.specs.List.Sorted.{IsPermutation};
ghost use Rattle.ready.specs.Order.{at_most, AtMost};
ghost use Rattle.ready.specs.Entries.{entry_at};
ghost use Rattle.ready.specs.Heaps.{Child, HeapOrdered};

use crate::entry::{Entry, at_most};

// Puts a heap in order that is in order but for its last entry.
pub(crate) fn move_up(heap: &mut [Entry])
    requires { HeapOrdered 1 (length heap.old - 1) heap.old }
    ensures same { IsPermutation heap.old heap.new }
    ensures ordered { HeapOrdered 1 (length heap.new) heap.new }
{
    let mut at = heap.len().saturating_sub(1);
    while at > 0 {
        let parent = (at - 1) / 2;
        if at_most(heap[parent], heap[at]) {
            return;
        }
        heap.swap(at, parent);
        at = parent;
    }
}

// Of two places the one whose entry comes first.
fn earlier_place(heap: &[Entry], left: usize, right: usize) -> usize
    requires { (left < length heap.now) × (right < length heap.now) }
    ensures { result ≡ (if at_most (entry_at heap.now left) (entry_at heap.now right) then left else right) }
{
    if at_most(heap[left], heap[right]) {
        left
    } else {
        right
    }
}

// Of the children of `at` the one whose entry comes first.
fn first_child(heap: &[Entry], at: usize) -> usize
    requires { at * 2 + 1 < length heap.now }
    ensures child { Child at result }
    ensures within { result < length heap.now }
    ensures first { (k : ℕ) → Child at k → k < length heap.now → AtMost (entry_at heap.now result) (entry_at heap.now k) }
{
    let left = at * 2 + 1;
    let right = left + 1;
    if right < heap.len() {
        earlier_place(heap, left, right)
    } else {
        left
    }
}

// Puts a heap in order that is in order but for its first entry, whose children are at places 1 and 2.
pub(crate) fn move_down(heap: &mut [Entry])
    requires { HeapOrdered 3 (length heap.old) heap.old }
    ensures same { IsPermutation heap.old heap.new }
    ensures ordered { HeapOrdered 1 (length heap.new) heap.new }
{
    let mut at = 0;
    while at < heap.len() / 2 {
        let child = first_child(heap, at);
        if at_most(heap[at], heap[child]) {
            return;
        }
        heap.swap(at, child);
        at = child;
    }
}
