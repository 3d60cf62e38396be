// The line of packets that a trace is run on.
use ready::heap::Heap;
use self_clocked::line::SelfClocked;
use std::marker::Model;

pub mod steps;

// A self-clocked line over the heap whose calls are listed as they are made.
#[derive(Drop)]
pub struct Lister {
    line: SelfClocked<Heap>,
}

// A contract sees the line. It began new and saw only calls, so it is sound.
impl Model for Lister {
    ghost use Rattle.ready.specs.declared.heap.Heap.{Heap as Entries};
    ghost use Rattle.self_clocked.specs.declared.line.SelfClocked.{SelfClocked as Line};
    ghost use Rattle.self_clocked.specs.Exact.{Sound};
    ghost use Rattle.self_clocked.specs.States.{state};
    ghost use Rattle.listing.specs.Resting.{heap_tags};

    ghost Value = { Line Entries };

    ghost view = { λ x. x.line };

    ghost invariant = { λ x. Sound (heap_tags x.line) (state x.line) };
}
