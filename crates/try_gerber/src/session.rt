// The calls: each chunk is lent, and behind a stroke the rest of it again.
ghost use Rattle.std.specs.Prelude.{◌<◌, ◌≤◌, length, IfOk};

use crate::page::Page;
use crate::stop::Stop;
use aperture::Table;
use gerber::{Given, Reader};
use std::io;
use std::io::{Stdin, Write};

// Where the calls are. used: how many of the file's bytes.
#[derive(Clone, Copy)]
struct Session {
    reader: Reader,
    used: u64,
}

// Whether a call repeats the refusal.
fn is_refused(given: Given, number: u64, place: u64) -> bool {
    matches!(given, Given::Refused(n, p) if n == number && p == place)
}

// A refusal is told; and both calls have to repeat it.
fn refused(
    t: Table,
    reader: Reader,
    number: u64,
    place: u64,
    chunk: &[u8],
    path: &mut [i32],
    page: &mut Page,
) -> Stop {
    if let Err(e) = put_refused(page, number, place) {
        return Stop::Unwritten(e);
    }
    let again = gerber::feed(reader, t, chunk, path);
    let last = gerber::finish(again.reader);
    if is_refused(again.given, number, place) && is_refused(last.given, number, place) {
        Stop::Refused
    } else {
        Stop::NotRepeated
    }
}

// The entries of a stroke in the path.
fn points_of(path: &[i32], first: usize, length: usize) -> Result<&[i32], Stop> {
    if path.len() < length {
        return Err(Stop::LongStroke);
    }
    if path.len() - length < first {
        return Err(Stop::OutsideStroke);
    }
    Ok(&path[first..first + length])
}

// The line of a refusal. A page may end behind its first word.
fn put_refused(page: &mut Page, number: u64, place: u64) -> io::Result<()> {
    page.write_all(b"refused")?;
    writeln!(page, " {number} {place}")
}

// The line of a stroke: a space before each x, a comma before each y. A page may end behind a word, a mark or a sign.
fn put_stroke(
    page: &mut Page,
    aperture: u64,
    first: usize,
    used: u64,
    points: &[i32],
) -> io::Result<()> {
    let length = points.len();
    page.write_all(b"stroke")?;
    write!(page, " {aperture} {first} {length} {used}")?;
    for (i, z) in points.iter().enumerate() {
        let mark = if i % 2 == 0 { b" " } else { b"," };
        page.write_all(mark)?;
        if *z < 0 {
            page.write_all(b"-")?;
        }
        let size = z.unsigned_abs();
        write!(page, "{size}")?;
    }
    page.write_all(b"\n")
}

// What is left behind a stroke: at least one byte has been used, and no more than there are.
fn behind(chunk: &[u8], used: usize) -> Result<&[u8], Stop>
    ensures { IfOk result (λ rest. length rest.now < length chunk.now) }
{
    if used == 0 {
        return Err(Stop::NoByte);
    }
    if chunk.len() < used {
        return Err(Stop::TooManyBytes);
    }
    Ok(&chunk[used..])
}

// A chunk, and behind each stroke its rest again. All of it has to be used up.
fn feed(
    t: Table,
    now: &mut Session,
    chunk: &[u8],
    path: &mut [i32],
    page: &mut Page,
) -> Result<(), Stop> {
    let mut rest = chunk;
    loop {
        let fed = gerber::feed(now.reader, t, rest, path);
        now.reader = fed.reader;
        now.used = now.used.wrapping_add(fed.used as u64);
        match fed.given {
            Given::More => {
                return if fed.used == rest.len() {
                    Ok(())
                } else {
                    Err(Stop::NotUsedUp)
                };
            }
            Given::Stroke(aperture, first, length) => {
                let points = points_of(path, first, length)?;
                put_stroke(page, aperture, first, now.used, points).map_err(Stop::Unwritten)?;
                rest = behind(rest, fed.used)?;
            }
            Given::Done => return Err(Stop::FedDone),
            Given::Refused(number, place) => {
                return Err(refused(t, now.reader, number, place, rest, path, page));
            }
        }
    }
}

// Lends a chunk of so many bytes, in parts where it is longer than the buffer, up to the file's end.
fn lend(
    input: Stdin,
    t: Table,
    now: &mut Session,
    count: u64,
    buf: &mut [u8],
    path: &mut [i32],
    page: &mut Page,
) -> Result<(), Stop>
    requires { 0 < length buf.old }
{
    let mut left = count;
    loop {
        let n = left.min(buf.len() as u64) as usize;
        let got = inputs::fill(input, &mut buf[..n]).map_err(Stop::Unread)?;
        feed(t, now, &buf[..got], path, page)?;
        left -= n as u64;
        if left == 0 || got < n {
            return Ok(());
        }
    }
}

// The whole file: each chunk, what is left, and the end.
fn read_all(
    input: Stdin,
    t: Table,
    unit: u64,
    chunks: &[u64],
    buf: &mut [u8],
    path: &mut [i32],
    page: &mut Page,
) -> Result<(), Stop>
    requires { 0 < length buf.old }
{
    let mut now = Session {
        reader: gerber::start(unit),
        used: 0,
    };
    for count in chunks {
        lend(input, t, &mut now, *count, buf, path, page)?;
    }
    lend(input, t, &mut now, u64::MAX, buf, path, page)?;
    let fed = gerber::finish(now.reader);
    match fed.given {
        Given::More => Err(Stop::FinishedMore),
        Given::Stroke(_, _, _) => Err(Stop::FinishedStroke),
        Given::Done => page.write_all(b"done\n").map_err(Stop::Unwritten),
        Given::Refused(number, place) => {
            Err(refused(t, fed.reader, number, place, b"", path, page))
        }
    }
}

// Reads standard input, a unit being so many nanometres, and tells what comes of it. Why it ends early is told
// before the last page is written.
pub fn run(
    rt: HostRuntime,
    t: Table,
    unit: u64,
    chunks: &[u64],
    buf: &mut [u8],
    path: &mut [i32],
) -> Result<(), Stop>
    requires { 0 < length buf.old }
{
    let mut page = Page::new(rt.stdout(), rt.stderr());
    if let Err(why) = read_all(rt.stdin(), t, unit, chunks, buf, path, &mut page) {
        crate::stop::tell(rt.stderr(), why);
    }
    page.flush().map_err(Stop::Unwritten)
}
