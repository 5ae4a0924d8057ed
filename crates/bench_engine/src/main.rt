// For bench/engine: the rows of one segment, driven by the engine or asked for by one call each, again and
// again. It tells how many pixels were black in all.
//
// Standard input is nine numbers of eight bytes each, lowest byte first: 0 for the engine or 1 for row
// calls; w, p and q; columns and rows; the first row, how many rows, and how often. The path follows,
// four bytes to an entry, of which it has four.
#![tactic(auto)]

use aperture::Table;
use checks::Answer;

const NUMBER: u64 = 10;

#[derive(Clone, Copy)]
struct Film {
    columns: u64,
    rows: u64,
    first: u64,
    count: u64,
}

// How many pixels a run has.
fn run_length(left: u16, right: u16) -> u64 {
    if right < left {
        0
    } else {
        u64::from(right) - u64::from(left) + 1
    }
}

// The pixels of the run that an answer counts, if it counts one.
fn pixels(a: Answer, list: &[u16]) -> u64 {
    match list {
        [left, right, ..] if a.count != 0 => run_length(*left, *right),
        _ => 0,
    }
}

// The black pixels of all rows, driven one after another.
fn driven(t: Table, path: &[i32], f: Film, list: &mut [u16]) -> u64 {
    let mut engine = engine::start(t, NUMBER, path, f.columns, f.rows, f.first).engine;
    let mut black = 0u64;
    for _ in 0..f.count {
        let stepped = engine::step(engine, list);
        engine = stepped.engine;
        black = black.wrapping_add(pixels(stepped.answer, list));
    }
    black
}

// The same, each row by a call of its own.
fn called(t: Table, path: &[i32], f: Film, list: &mut [u16]) -> u64 {
    let mut black = 0u64;
    let mut row = f.first;
    for _ in 0..f.count {
        let answer = row::row_runs(t, NUMBER, path, f.columns, f.rows, row, list);
        black = black.wrapping_add(pixels(answer, list));
        row = row.wrapping_add(1);
    }
    black
}

// The black pixels of so many turns.
fn again<F: FnMut() -> u64>(times: u64, mut once: F) -> u64
    requires { F.IsAlwaysCallable once }
{
    let mut black = 0u64;
    for _ in 0..times {
        black = black.wrapping_add(once());
    }
    black
}

// Does what a head asks for.
fn work(head: &[u8], path: &[i32], list: &mut [u16]) -> u64 {
    let w = wire::number(head, 8);
    let p = wire::number(head, 16);
    let q = wire::number(head, 24);
    let table = aperture::define(aperture::none(), NUMBER, w, p, q).table;
    let film = Film {
        columns: wire::number(head, 32),
        rows: wire::number(head, 40),
        first: wire::number(head, 48),
        count: wire::number(head, 56),
    };
    let times = wire::number(head, 64);
    match wire::number(head, 0) {
        0 => again(times, || driven(table, path, film, list)),
        _ => again(times, || called(table, path, film, list)),
    }
}

fn read(rt: HostRuntime, bytes: &mut [u8]) {
    if let Err(e) = inputs::fill(rt.stdin(), bytes) {
        tell::fail(rt.stderr(), b"bench_engine: standard input", e);
    }
}

fn main(rt: HostRuntime) {
    let mut head = [0u8; 72];
    let mut bytes = [0u8; 16];
    let mut path = [0i32; 4];
    let mut list = [0u16; 2];
    read(rt, &mut head);
    read(rt, &mut bytes);
    wire::decode(&bytes, &mut path);
    let black = work(&head, &path, &mut list);
    let _ = println!(rt; "{black}");
}
