// A test tool: a table of apertures through a stream of calls, each call answered, to compare with
// another program's answers.
//
// Standard input is commands. The head is seven numbers of eight bytes each, lowest byte first: the
// kind; an aperture's number; w, p, q, or columns, rows, row; the room; the number of path entries.
// The path follows, four bytes to an entry, in two's complement. Kinds: 0 the empty table again,
// 1 define, 2 remove, 3 row (the room counts numbers), 4 packed row (bytes), 5 records (records).
//
// To each command standard output gets the refusal, of eight bytes; a call that draws adds the
// place and the count, of eight bytes each, and then all that was lent: two bytes to a number, one
// to a byte, four to a record. Before the call it held the pattern of the module pattern.
//
// Where the stream breaks off or cannot be read, a command is none of these or an answer cannot be
// written, the tool ends, and tells it on standard error.
#![tactic(auto)]

mod command;
mod draw;
mod pattern;

use aperture::Table;
use command::{Command, HEAD, Kind};
use inputs::Leave;
use std::io;

// Obeys a command.
fn obey(rt: HostRuntime, t: &mut Table, c: Command) -> Result<(), Leave> {
    let refusal = match c.kind {
        Kind::Start => {
            *t = aperture::none();
            limits::DONE
        }
        Kind::Define => {
            let changed = aperture::define(*t, c.number, c.a, c.b, c.c);
            *t = changed.table;
            changed.refusal
        }
        Kind::Remove => {
            let changed = aperture::remove(*t, c.number);
            *t = changed.table;
            changed.refusal
        }
        Kind::Draw(form) => return draw::draw(rt, *t, form, c),
    };
    inputs::put_number(&mut io::writer(&rt), refusal)
}

// Reads one command and obeys it.
fn one(rt: HostRuntime, t: &mut Table) -> Result<(), Leave> {
    let head: [u8; HEAD] = inputs::head(&mut rt.stdin(), Leave::BrokenCommand)?;
    obey(rt, t, command::decode(&head)?)
}

fn main(rt: HostRuntime) {
    let mut table = aperture::none();
    inputs::serve(
        rt.stderr(),
        b"try_calls: ",
        b"try_calls: standard input",
        || one(rt, &mut table),
    );
}
