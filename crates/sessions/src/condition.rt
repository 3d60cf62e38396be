// What the line is doing, and what makes that change.
use calls::call::Service;

#[derive(Clone, Copy)]
pub(crate) enum Condition {
    // Nothing waits and nothing is in service.
    Idle,
    // Packets wait and none is in service.
    Pausing,
    // A packet is in service.
    Carrying(Service),
}

#[derive(Clone, Copy)]
pub(crate) enum Event {
    // A packet began to wait.
    Entered,
    // A waiting packet went into service.
    Started(Service),
    // The packet in service left.
    Finished,
}
