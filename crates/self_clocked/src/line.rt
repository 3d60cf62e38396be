// The state of a self-clocked line.
ghost use Rattle.std.specs.Prelude.{◌≡◌, length};

use calls::session::SESSIONS;
use sessions::state::Sessions;

pub mod as_discipline;
pub mod changes;
pub mod preview;

// `lasts` has the last mark of each session. The ready line has an entry for each session with a waiting packet: the mark of its
// first one.
#[derive(Drop)]
pub struct SelfClocked<R: Drop> {
    sessions: Sessions,
    clock: u64,
    lasts: [u64; SESSIONS],
    ready: R,
    ghost marks: { length lasts ≡ 64 },
}
