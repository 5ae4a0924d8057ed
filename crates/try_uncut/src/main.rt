// A test tool: how far many segments reach in one row each, uncut, to compare with another
// program's answers.
//
// Standard input is requests. The head is seven numbers of eight bytes each, lowest byte first: a
// setting's w, p and q; the number that it is defined under in an empty table; the number that is
// asked with; the row; how many entries the path has. The path follows, four bytes to an entry, in
// two's complement.
//
// To each request standard output gets six numbers of eight bytes each: refusal, place and count;
// then 1 and the first and the last black column, in two's complement, or three zeros for none.
//
// Where the stream breaks off or cannot be read, a request is too long for the tool or an answer
// cannot be written, the tool ends, and tells it on standard error.
#![tactic(auto)]

ghost use Rattle.std.specs.Prelude.{OnOk};
ghost use Rattle.std.specs.Io.KnownBytes.{Appends};
ghost use Rattle.try_uncut.specs.Answer.{three_bytes, extent_bytes};

mod request;

use extent::Extent;
use inputs::Leave;
use request::{HEAD, PATH_MAX, Request};
use std::io;
use std::io::Write;

// Three numbers of eight bytes each, two of them in two's complement.
fn put_three<W: Write>(out: &mut W, some: u64, first: i64, last: i64) -> Result<(), Leave>
    ensures { OnOk result (Appends (W.contents out.old) (W.contents out.new) (three_bytes some first last)) }
{
    inputs::put(out, &wire::number_bytes(some))?;
    inputs::put(out, &wire::eight(first))?;
    inputs::put(out, &wire::eight(last))
}

// 1 and the two columns, or three zeros for none.
fn put_extent<W: Write>(out: &mut W, e: Option<Extent>) -> Result<(), Leave>
    ensures { OnOk result (Appends (W.contents out.old) (W.contents out.new) (extent_bytes e)) }
{
    match e {
        Some(Extent { first, last }) => put_three(out, 1, first, last),
        None => put_three(out, 0, 0, 0),
    }
}

// Asks how far the path's segment reaches, and writes what is answered.
fn answer(rt: HostRuntime, r: Request, path: &[i32]) -> Result<(), Leave> {
    let table = aperture::define(aperture::none(), r.defined, r.w, r.p, r.q).table;
    let reached = uncut::reach(table, r.number, path, r.row);
    let mut out = io::writer(&rt);
    inputs::put_answer(&mut out, reached.answer)?;
    put_extent(&mut out, reached.extent)
}

// Reads the path that follows a head, and answers the request.
fn read_on(rt: HostRuntime, r: Request, bytes: &mut [u8], path: &mut [i32]) -> Result<(), Leave> {
    inputs::rest(&mut rt.stdin(), bytes, Leave::BrokenRequest)?;
    wire::decode(bytes, path);
    answer(rt, r, path)
}

// Answers the request of a head.
fn obey(rt: HostRuntime, r: Request) -> Result<(), Leave> {
    if r.entries > PATH_MAX as u64 {
        return Err(Leave::LongRequest);
    }
    let n = r.entries as usize;
    let end = 4 * n;
    let mut bytes = [0u8; 4 * PATH_MAX];
    let mut path = [0i32; PATH_MAX];
    read_on(rt, r, &mut bytes[..end], &mut path[..n])
}

// Reads one request and answers it.
fn one(rt: HostRuntime) -> Result<(), Leave> {
    let head: [u8; HEAD] = inputs::head(&mut rt.stdin(), Leave::BrokenRequest)?;
    obey(rt, request::decode(&head))
}

fn main(rt: HostRuntime) {
    inputs::serve(
        rt.stderr(),
        b"try_uncut: ",
        b"try_uncut: standard input",
        || one(rt),
    );
}
