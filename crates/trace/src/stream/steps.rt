// The steps over a trace that comes in chunks: one line at a time.
ghost use Rattle.std.specs.Prelude.{◌≡◌, ◌<◌, ◌++◌, length, IfSome};
ghost use Rattle.std.specs.Option.{option_map};
ghost use Rattle.trace.specs.Cuts.{split_once};
ghost use Rattle.trace.specs.Streams.{begin, kept, next_at, after_part, line_ended, after_line, next_reading, after_next, last_reading};

use crate::cut::split_once;
use crate::line::read_line;
use crate::reading::Reading;
use crate::stream::{Held, LineReader};

// The number of the line behind the one with this number. It stays at the largest.
pub fn next_at(at: u32) -> u32
    ensures { result ≡ next_at at }
{
    at.saturating_add(1)
}

// Puts the part to the end, as much of it as there is room for.
#[tactic(auto, using(crate::proofs::Streaming::held_more))]
fn keep(held: &mut Held, part: &[u8])
    ensures { held.new.items ≡ kept (held.old.items ++ part.now) }
{
    let n = part.len().min(held.remaining_capacity());
    held.try_extend_from_slice(&part[..n]).unwrap();
}

impl LineReader {
    pub fn new() -> LineReader
        ensures { result ≡ begin }
    {
        LineReader {
            at: 1,
            held: Held::new(),
        }
    }

    // Keeps a part of the line for later.
    fn hold(&mut self, part: &[u8])
        ensures { self.new ≡ after_part self.old part.now }
    {
        keep(&mut self.held, part);
    }

    // Reads the line that ends with this part, and goes on to the next.
    #[tactic(auto, using(crate::proofs::Streaming::line_alone))]
    fn end_line(&mut self, part: &[u8]) -> Reading
        ensures reading { result ≡ line_ended self.old part.now }
        ensures after { self.new ≡ after_line self.old }
    {
        let at = self.at;
        self.at = next_at(at);
        if self.held.is_empty() {
            return Reading {
                at,
                line: read_line(part),
            };
        }
        self.hold(part);
        let line = read_line(&self.held);
        self.held.clear();
        Reading { at, line }
    }

    // What the line that ends in the chunk says, and what is left of the chunk; nothing where none ends in it.
    pub fn next<'a>(&mut self, chunk: &'a [u8]) -> Option<(Reading, &'a [u8])>
        ensures reading { option_map (λ p. (p.0, p.1.now)) result ≡ next_reading self.old (split_once 10 chunk.now) }
        ensures after { self.new ≡ after_next self.old chunk.now (split_once 10 chunk.now) }
        ensures shorter { IfSome result (λ p. length p.1.now < length chunk.now) }
    {
        match split_once(chunk, b'\n') {
            Some((part, rest)) => Some((self.end_line(part), rest)),
            None => {
                self.hold(chunk);
                None
            }
        }
    }

    // What the last line says, where no octet 10 ends it and it is not empty.
    pub fn last(&self) -> Option<Reading>
        ensures { result ≡ last_reading self.now }
    {
        if self.held.is_empty() {
            return None;
        }
        Some(Reading {
            at: self.at,
            line: read_line(&self.held),
        })
    }
}
