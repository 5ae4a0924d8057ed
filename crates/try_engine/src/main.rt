// A test tool: the rows of many segments, driven one after another by the engine, to compare with
// another program's.
//
// Standard input is requests. The head is ten numbers of eight bytes each, lowest byte first: a
// setting's w, p and q; the number that it is defined under in an empty table; the number that the
// engine is started with; columns, rows and row; how many entries the path has; how many steps are
// made. The path follows, four bytes to an entry, in two's complement, and then the room of each
// step, of one byte: how many numbers of two bytes it is lent.
//
// To each request standard output gets what the start answered: refusal, place and count, of eight
// bytes each. The same follows for each step, and then all that was lent to it, two bytes to a number.
// Steps are made after a refused start, and after a refused step, too.
//
// Where the stream breaks off or cannot be read, a request is too long for the tool or an answer cannot be
// written, the tool ends, and tells it on standard error.
#![tactic(auto)]

mod drive;
mod request;

use inputs::Leave;
use request::{HEAD, PATH_MAX, Request, STEPS_MAX};
use std::io;

// Starts an engine and makes its steps.
fn answer(rt: HostRuntime, r: Request, path: &[i32], rooms: &[u8]) -> Result<(), Leave> {
    let table = aperture::define(aperture::none(), r.defined, r.w, r.p, r.q).table;
    let started = engine::start(table, r.number, path, r.columns, r.rows, r.row);
    inputs::put_answer(&mut io::writer(&rt), started.answer)?;
    drive::drive(rt, started.engine, rooms)
}

// Reads what follows a head, and answers the request.
fn read_on(
    rt: HostRuntime,
    r: Request,
    bytes: &mut [u8],
    path: &mut [i32],
    rooms: &mut [u8],
) -> Result<(), Leave> {
    inputs::rest(&mut rt.stdin(), bytes, Leave::BrokenRequest)?;
    inputs::rest(&mut rt.stdin(), rooms, Leave::BrokenRequest)?;
    wire::decode(bytes, path);
    answer(rt, r, path, rooms)
}

// Answers the request of a head.
fn obey(rt: HostRuntime, r: Request) -> Result<(), Leave> {
    if r.entries > PATH_MAX as u64 || r.steps > STEPS_MAX as u64 {
        return Err(Leave::LongRequest);
    }
    let n = r.entries as usize;
    let end = 4 * n;
    let steps = r.steps as usize;
    let mut bytes = [0u8; 4 * PATH_MAX];
    let mut path = [0i32; PATH_MAX];
    let mut rooms = [0u8; STEPS_MAX];
    read_on(
        rt,
        r,
        &mut bytes[..end],
        &mut path[..n],
        &mut rooms[..steps],
    )
}

// Reads one request and answers it.
fn one(rt: HostRuntime) -> Result<(), Leave> {
    let head: [u8; HEAD] = inputs::head(&mut rt.stdin(), Leave::BrokenRequest)?;
    obey(rt, request::decode(&head))
}

fn main(rt: HostRuntime) {
    inputs::serve(
        rt.stderr(),
        b"try_engine: ",
        b"try_engine: standard input",
        || one(rt),
    );
}
