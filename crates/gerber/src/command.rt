// What a command asks for: one function for each, and what they share.
ghost use Rattle.std.specs.Prelude.{◌≡◌, List, ℤ};
ghost use Rattle.units.specs.Units.{in_units};
ghost use Rattle.trace.specs.Trace.{ended, moved};
ghost use Rattle.scan.specs.Scanner.{word_of};
ghost use Rattle.gerber.specs.Reader.{with_trace, latched, closes, chooses, moves, joins, draws, obeyed_word, shown};

use crate::{Given, Obeyed, Reader};
use aperture::{Looked, Table};
use limits::Verdict;
use scan::Command;

// A whole command. Its numbers are the scanner's, and so is its place.
#[tactic(auto, unfolding(crate::specs::Reader::obeyed))]
pub fn obey(r: Reader, t: Table, c: Command, path: &mut [i32]) -> Obeyed
    ensures { record { told = result; entries = path.new } ≡ shown (obeyed_word t (record { reader = r; path = path.old }) (word_of c r.scanner.x r.scanner.y)) }
{
    match c {
        Command::Nothing => goes(r),
        Command::Choose(n) => choose(r, t, n),
        Command::Move => shift(r),
        Command::Line => draw(r, path),
        Command::End => end(r),
    }
}

pub fn goes(r: Reader) -> Obeyed
    ensures { result ≡ record { reader = r; given = Given.More } }
{
    Obeyed {
        reader: r,
        given: Given::More,
    }
}

// The reader keeps the refusal, and every later call repeats it.
pub fn refuse(r: Reader, number: u64, place: u64) -> Obeyed
    ensures { result ≡ record { reader = latched r number place; given = Given.Refused number place } }
{
    Obeyed {
        reader: latched(r, number, place),
        given: Given::Refused(number, place),
    }
}

pub fn latched(r: Reader, number: u64, place: u64) -> Reader
    ensures { result ≡ latched r number place }
{
    Reader {
        refusal: number,
        place,
        ..r
    }
}

// The stroke that was open is given, if one was; `next` is the reader then.
fn close(r: Reader, next: Reader) -> Obeyed
    ensures { (p : List ℤ) → record { told = result; entries = p } ≡ shown (closes r (record { reader = next; path = p })) }
{
    let ended = trace::end(r.trace);
    if ended.length == 0 {
        return goes(next);
    }
    Obeyed {
        reader: next,
        given: Given::Stroke(r.aperture, ended.first, ended.length),
    }
}

fn choose(r: Reader, t: Table, n: u64) -> Obeyed
    ensures { (p : List ℤ) → record { told = result; entries = p } ≡ shown (chooses t r.scanner.start n (record { reader = r; path = p })) }
{
    let Looked::At(_) = aperture::look_up(t, n) else {
        return refuse(r, limits::NO_APERTURE, r.scanner.start);
    };
    let next = Reader {
        aperture: n,
        trace: trace::end(r.trace).trace,
        ..r
    };
    close(r, next)
}

// The last number of each axis, in units.
fn x_of(r: Reader) -> i32
    ensures { result ≡ in_units r.scanner.x r.unit }
{
    units::in_units(r.scanner.x, r.unit)
}

fn y_of(r: Reader) -> i32
    ensures { result ≡ in_units r.scanner.y r.unit }
{
    units::in_units(r.scanner.y, r.unit)
}

fn shift(r: Reader) -> Obeyed
    ensures { (p : List ℤ) → record { told = result; entries = p } ≡ shown (moves r.scanner.start (in_units r.scanner.x r.unit) (in_units r.scanner.y r.unit) (record { reader = r; path = p })) }
{
    let x = x_of(r);
    let y = y_of(r);
    match trace::move_check(x, y, r.scanner.start) {
        Verdict::Refused(number, place) => refuse(r, number, place),
        Verdict::Passed => moved(r, x, y),
    }
}

fn moved(r: Reader, x: i32, y: i32) -> Obeyed
    ensures { (p : List ℤ) → record { told = result; entries = p } ≡ shown (closes r (record { reader = with_trace r r.aperture (moved r.trace x y); path = p })) }
{
    let next = Reader {
        trace: trace::move_to(r.trace, x, y),
        ..r
    };
    close(r, next)
}

fn draw(r: Reader, path: &mut [i32]) -> Obeyed
    ensures { record { told = result; entries = path.new } ≡ shown (draws r.scanner.start (in_units r.scanner.x r.unit) (in_units r.scanner.y r.unit) (record { reader = r; path = path.old })) }
{
    let start = r.scanner.start;
    if !r.trace.placed {
        return refuse(r, limits::BAD_COMMAND, start);
    }
    if r.aperture == 0 {
        return refuse(r, limits::NO_APERTURE, start);
    }
    let x = x_of(r);
    let y = y_of(r);
    match trace::line_check(r.trace, x, y, path.len(), start) {
        Verdict::Refused(number, place) => refuse(r, number, place),
        Verdict::Passed => lined(r, x, y, path),
    }
}

fn lined(r: Reader, x: i32, y: i32, path: &mut [i32]) -> Obeyed
    ensures { record { told = result; entries = path.new } ≡ shown (joins x y (record { reader = r; path = path.old })) }
{
    let trace = trace::line(r.trace, x, y, path);
    goes(Reader { trace, ..r })
}

fn end(r: Reader) -> Obeyed
    ensures { (p : List ℤ) → record { told = result; entries = p } ≡ shown (closes r (record { reader = with_trace r r.aperture (ended r.trace).trace; path = p })) }
{
    let trace = trace::end(r.trace).trace;
    close(r, Reader { trace, ..r })
}
