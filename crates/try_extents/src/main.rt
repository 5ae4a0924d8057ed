// A test tool: the extents of many segments, as bytes, to compare with another program's.
//
// Standard input is records of 48 bytes, lowest byte first: a setting's w, p and q of eight bytes
// each; A's x and y and B's x and y of four bytes each, in two's complement; and the row, of eight.
// An incomplete record at the end is ignored. To each record standard output gets the byte 0 for
// nothing, or the byte 1 and the first and the last column, of eight bytes each.
#![tactic(auto)]

mod answer;

use extent::Extent;
use inputs::Leave;
use pen::Pen;
use std::io::Stdout;

// Writes what the segment of a record leaves in its row. A negative row reads as one far too large. Where a
// write fails, there is nothing to tell.
fn write(to: Stdout, s: &[u8], pen: Pen) -> Result<(), Leave> {
    let ax = wire::signed(s, 24);
    let ay = wire::signed(s, 28);
    let bx = wire::signed(s, 32);
    let by = wire::signed(s, 36);
    let row = wire::number(s, 40);
    match extent::extent_of(pen, ax, ay, bx, by, row) {
        Some(Extent { first, last }) => to.write_all(&answer::columns(first, last)),
        None => to.write_all(&[0]),
    }
    .map_err(|_| Leave::End)
}

// Reads one record and writes the answer to it.
fn one(rt: HostRuntime) -> Result<(), Leave> {
    let bytes: [u8; 48] = inputs::record(&mut rt.stdin())?;
    let w = wire::number(&bytes, 0);
    let p = wire::number(&bytes, 8);
    let q = wire::number(&bytes, 16);
    // A refused setting's pen has no corners, and leaves nothing.
    write(rt.stdout(), &bytes, pen::build(w, p, q).pen)
}

fn main(rt: HostRuntime) {
    inputs::serve(
        rt.stderr(),
        b"try_extents: ",
        b"try_extents: standard input",
        || one(rt),
    );
}
