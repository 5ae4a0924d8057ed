// overlay FIRST SECOND: tells on standard output where two raw PBM films differ. What is no answer
// about films is told on standard error, in the name of the file.
//
// Nothing is decided here: the program moves bytes from the files to the calls of `compare`, and
// from them to standard output, as the definition `run` says.
#![tactic(auto)]

ghost use Rattle.std.specs.Prelude.{◌≤◌, length, IfOk};

use compare::{Refusal, Sizes};
use files::{Film, read_at};
use output::{Told, write};
use std::env::Env;
use std::fs::File;
use std::str;

mod files;
mod output;
mod rows;

const TEXT_ROOM: usize = lines::TEXT_ROOM;

const HEADER_MAX: usize = pbm::HEADER_MAX;

// How many bytes of a file's name are read: no path is longer.
const NAME_MAX: usize = 4096;

// A refusal is its own line.
fn tell_refusal(rt: HostRuntime, r: Refusal, out: &mut [u8]) -> Result<(), Told> {
    let count = compare::put_refusal(r, out);
    write(rt.stdout(), rt.stderr(), out, count)
}

// Two films of one size: their ends, and then their rows.
fn lay_films(
    rt: HostRuntime,
    first: Film,
    second: Film,
    sizes: Sizes,
    out: &mut [u8],
) -> Result<(), Told> {
    let last = compare::last_byte(sizes.columns, sizes.rows, sizes.start);
    let mut space = [0u8; 2];
    let n = read_at(first, rt.stderr(), &mut space, last)?;
    let m = read_at(second, rt.stderr(), &mut space, last)?;
    match compare::ends_check(n, m) {
        Err(r) => tell_refusal(rt, r, out),
        Ok(()) => rows::tell_rows(rt.stdout(), rt.stderr(), first, second, sizes, out),
    }
}

// Two open films: their headers, and then what follows.
fn lay(rt: HostRuntime, first: Film, second: Film) -> Result<(), Told> {
    let mut out = [0u8; TEXT_ROOM];
    let mut first_text = [0u8; HEADER_MAX];
    let n = read_at(first, rt.stderr(), &mut first_text, 0)?;
    let mut second_text = [0u8; HEADER_MAX];
    let m = read_at(second, rt.stderr(), &mut second_text, 0)?;
    let first_header = pbm::read_header(&first_text[..n]);
    let second_header = pbm::read_header(&second_text[..m]);
    match compare::headers_check(first_header, second_header) {
        Err(r) => tell_refusal(rt, r, &mut out),
        Ok(sizes) => lay_films(rt, first, second, sizes, &mut out),
    }
}

// The name that a word of the command line is, and how many bytes it has.
fn read_name(rt: HostRuntime, word: usize, what: &[u8], name: &mut [u8]) -> Result<usize, Told>
    ensures { IfOk result (λ n. n ≤ length name.new) }
{
    rt.arg(word, name).map_err(|e| {
        tell::fail(rt.stderr(), what, inputs::word_error(e));
        Told
    })
}

// The file of a name. Where it cannot be opened, that is told.
fn open(rt: HostRuntime, name: &[u8]) -> Result<File, Told> {
    let Ok(path) = str::from_utf8(name) else {
        tell::say(rt.stderr(), name);
        tell::say(rt.stderr(), b": the name is no UTF-8\n");
        return Err(Told);
    };
    File::open(&rt, path).map_err(|e| {
        tell::fail(rt.stderr(), name, e);
        Told
    })
}

// The films of the two words.
fn run(rt: HostRuntime) -> Result<(), Told> {
    if inputs::word_count(&rt) != 3 {
        tell::say(rt.stderr(), b"usage: overlay FIRST SECOND\n");
        return Err(Told);
    }
    let mut name = [0u8; NAME_MAX];
    let n = read_name(rt, 1, b"the first film's name", &mut name)?;
    let first = open(rt, &name[..n])?;
    let mut second_name = [0u8; NAME_MAX];
    let m = read_name(rt, 2, b"the second film's name", &mut second_name)?;
    let second = open(rt, &second_name[..m])?;
    lay(
        rt,
        Film {
            file: &first,
            name: &name[..n],
        },
        Film {
            file: &second,
            name: &second_name[..m],
        },
    )
}

fn main(rt: HostRuntime) {
    let _ = run(rt);
}
