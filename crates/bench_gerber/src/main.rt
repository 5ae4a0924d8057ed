// For bench/gerber: reads the Gerber file on standard input, in chunks of 65,536 bytes, and tells how many
// strokes and entries it gives and how it ends. A unit is 1,000 nanometres, and apertures 10 to 13 are in use.
//
// A file may give more entries than a path holds: behind each stroke the reader is made to start at the
// path's first entry again, as if the stroke had been drawn and were not wanted any more.
#![tactic(auto)]

use aperture::Table;
use gerber::{Given, Reader};
use std::io;
use trace::Trace;

const ROOM: usize = 65536;

// How many bytes of the file are read at a time, at most.
const CHUNK: usize = 65536;

#[derive(Clone, Copy)]
struct Tally {
    reader: Reader,
    strokes: u64,
    entries: u64,
}

// The reader with all of the path before it.
fn emptied(r: Reader) -> Reader {
    Reader {
        trace: Trace {
            first: 0,
            filled: 0,
            ..r.trace
        },
        ..r
    }
}

// A chunk, and behind each stroke its rest again. Answers whether the last call refused nothing.
fn feed(t: Table, tally: &mut Tally, chunk: &[u8], path: &mut [i32]) -> bool {
    let mut rest = chunk;
    loop {
        let fed = gerber::feed(tally.reader, t, rest, path);
        tally.reader = fed.reader;
        match fed.given {
            Given::More => return true,
            Given::Stroke(_, _, length) => {
                tally.reader = emptied(fed.reader);
                tally.strokes = tally.strokes.wrapping_add(1);
                tally.entries = tally.entries.wrapping_add(length as u64);
                let used = fed.used.min(rest.len());
                if used == 0 {
                    return true;
                }
                rest = &rest[used..];
            }
            Given::Done | Given::Refused(_, _) => return false,
        }
    }
}

// A proved loop has to end, and nothing says that the input does.
fn read_all(
    rt: HostRuntime,
    t: Table,
    tally: &mut Tally,
    buf: &mut [u8],
    path: &mut [i32],
) -> io::Result<()> {
    for _ in 0..u64::MAX {
        let n = inputs::fill(rt.stdin(), buf)?;
        if !feed(t, tally, &buf[..n], path) || n < buf.len() {
            break;
        }
    }
    Ok(())
}

fn main(rt: HostRuntime) {
    let mut path = [0i32; ROOM];
    let mut buf = [0u8; CHUNK];
    let mut table = aperture::none();
    for number in 10..14 {
        table = aperture::define(table, number, 16, 1, 1).table;
    }
    let mut tally = Tally {
        reader: gerber::start(1000),
        strokes: 0,
        entries: 0,
    };
    if let Err(e) = read_all(rt, table, &mut tally, &mut buf, &mut path) {
        tell::fail(rt.stderr(), b"bench_gerber: standard input", e);
    }
    let Tally {
        reader,
        strokes,
        entries,
    } = tally;
    let out = rt.stdout();
    tell::piecewise(out, format_args!("{strokes} strokes, {entries} entries, "));
    match gerber::finish(reader).given {
        Given::More => tell::piecewise(out, "more\n"),
        Given::Stroke(_, _, _) => tell::piecewise(out, "a stroke\n"),
        Given::Done => tell::piecewise(out, "done\n"),
        Given::Refused(number, _) => tell::piecewise(out, format_args!("refused {number}\n")),
    }
}
