// fairline: reads a trace from standard input, runs it on a new self-clocked line over the heap, and prints the listing.
#![tactic(auto)]

use calls::session::SESSIONS;
use listing::lister::Lister;
use std::io;
use std::io::{BufWriter, Read, Write};
use trace::reading::Reading;
use trace::stream::LineReader;
use trace::text::LINE_ROOM;

// Prints the line about one line of the trace.
fn print_reading(out: &mut impl Write, lister: &mut Lister, reading: Reading) -> io::Result<()> {
    let mut text = [0; LINE_ROOM];
    let len = lister.write_reading_into(reading, &mut text);
    out.write_all(&text[..len])
}

// Prints the lines about the lines that end in the chunk.
fn print_chunk(
    out: &mut impl Write,
    lister: &mut Lister,
    reader: &mut LineReader,
    chunk: &[u8],
) -> io::Result<()> {
    let mut rest = chunk;
    while let Some((reading, left)) = reader.next(rest) {
        print_reading(out, lister, reading)?;
        rest = left;
    }
    Ok(())
}

// Prints the closing lines of the open sessions.
fn print_closings(out: &mut impl Write, lister: &Lister) -> io::Result<()> {
    let mut text = [0; LINE_ROOM];
    for session in 0..SESSIONS as u32 {
        let len = lister.write_closing(session, &mut text);
        out.write_all(&text[..len])?;
    }
    Ok(())
}

fn main(rt: HostRuntime) -> io::Result<()> {
    let mut input = rt.stdin();
    let mut out = BufWriter::new(rt.alloc(), rt.stdout())?;
    let mut lister = Lister::new();
    let mut reader = LineReader::new();
    let mut chunk = [0; 65536];
    for _ in 0..u64::MAX {
        let count = input.read(&mut chunk)?;
        if count == 0 {
            break;
        }
        print_chunk(&mut out, &mut lister, &mut reader, &chunk[0..count])?;
    }
    if let Some(reading) = reader.last() {
        print_reading(&mut out, &mut lister, reading)?;
    }
    print_closings(&mut out, &lister)?;
    out.flush()
}
