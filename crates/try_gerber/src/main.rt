// A test tool: the reader of Gerber files over a file in chunks, to compare with another program's reading.
//
//     try_gerber N ROOM APERTURES CHUNKS <FILE
//
// N: the nanometres of a unit. ROOM: how many entries of the path are lent, at most 65,536. APERTURES: those in
// use, with commas between, or `-` for none. CHUNKS: the lengths of the chunks, likewise; what is left of the
// file is one chunk more. A chunk longer than the buffer is lent in parts.
//
// Standard output gets a line for each stroke, with the file's bytes used up to there, and one for the end:
//
//     stroke APERTURE FIRST LENGTH USED x,y x,y ..
//     refused NUMBER PLACE        or      done
//
// What is no answer is told on standard error: words of another form, a read or a write that failed, and
// answers that no reader gives, as a refusal that the next call does not repeat.
#![tactic(auto)]

mod page;
mod session;
mod stop;
mod words;

ghost use Rattle.std.specs.Prelude.{◌≤◌};
ghost use Rattle.try_gerber.specs.Words.{room_max};

use aperture::Table;
use std::env::Env;
use stop::Stop;
use words::read_list;

const ROOM_MAX: usize = 65536;

// How many bytes of a word are read, and of that with the chunks, which is shorter on any command line.
const WORD_MAX: usize = 4096;

const CHUNKS_WORD_MAX: usize = 131072;

// How many bytes of the file are lent at a time, at most.
const BUFFER: usize = 65536;

const CHUNKS_MAX: usize = 65536;

const APERTURES_MAX: usize = 64;

// The table of these apertures, unless one cannot be defined. All have the least setting: no stroke is drawn here.
fn define(numbers: &[u64]) -> Option<Table> {
    let mut table = aperture::none();
    for number in numbers {
        let changed = aperture::define(table, *number, 16, 1, 1);
        if changed.refusal != limits::DONE {
            return None;
        }
        table = changed.table;
    }
    Some(table)
}

// The arrays to lend, of the path so many entries.
fn lend(rt: HostRuntime, t: Table, unit: u64, room: usize, chunks: &[u64]) -> Result<(), Stop>
    requires { room ≤ room_max }
{
    let mut path = [0i32; ROOM_MAX];
    let mut buf = [0u8; BUFFER];
    session::run(rt, t, unit, chunks, &mut buf, &mut path[..room])
}

// The chunks' lengths.
fn with_chunks(rt: HostRuntime, t: Table, unit: u64, room: usize) -> Result<(), Stop>
    requires { room ≤ room_max }
{
    let mut word = [0u8; CHUNKS_WORD_MAX];
    let n = rt.arg(4, &mut word).map_err(Stop::Chunks)?;
    let mut chunks = [0u64; CHUNKS_MAX];
    let count = read_list(&word[..n], &mut chunks).ok_or(Stop::ChunksList)?;
    lend(rt, t, unit, room, &chunks[..count])
}

// The apertures in use.
fn with_apertures(rt: HostRuntime, unit: u64, room: usize) -> Result<(), Stop>
    requires { room ≤ room_max }
{
    let mut word = [0u8; WORD_MAX];
    let n = rt.arg(3, &mut word).map_err(Stop::Apertures)?;
    let mut numbers = [0u64; APERTURES_MAX];
    let count = read_list(&word[..n], &mut numbers).ok_or(Stop::AperturesList)?;
    let table = define(&numbers[..count]).ok_or(Stop::AperturesNumber)?;
    with_chunks(rt, table, unit, room)
}

fn read(rt: HostRuntime) -> Result<(), Stop> {
    if inputs::word_count(&rt) != 5 {
        return Err(Stop::Form);
    }
    let unit = inputs::word_number(&rt, 1).map_err(|_| Stop::Unit)?;
    let room = inputs::word_number(&rt, 2).map_err(|_| Stop::Room)?;
    if (ROOM_MAX as u64) < room {
        return Err(Stop::LargeRoom);
    }
    with_apertures(rt, unit, room as usize)
}

fn main(rt: HostRuntime) {
    if let Err(why) = read(rt) {
        stop::tell(rt.stderr(), why);
    }
}
