// The packed row: which columns of one row a path blackens, as bits, for a raw PBM file.
//
// The way of the data: the checks in document 01's order, and the segments' columns in the row, cut
// to the raster and laid over the bytes (all in crates of their own); draw leads through these.
#![tactic(auto)]

ghost use Rattle.std.specs.Prelude.{◌≡◌};
ghost use Rattle.plane.specs.Point.{corners};
ghost use Rattle.pen.specs.Answer.{pen_corners};
ghost use Rattle.packed.specs.Packed.{pack_result, packed_call};

use aperture::{Looked, Table};
use checks::Answer;
use limits::Verdict;
use pen::Pen;

mod draw;

// The row for an aperture, a bit to a column. The checks are those of document 01, in its order: 6,
// 2, 4, 5, 3, 7.
pub fn packed_row(
    table: Table,
    number: u64,
    path: &[i32],
    columns: u64,
    rows: u64,
    row: u64,
    bytes: &mut [u8],
) -> Answer
    ensures { record { answer = result; list = bytes.new } ≡ packed_call table number path.now columns rows row bytes.old }
{
    let Looked::At(i) = aperture::look_up(table, number) else {
        return checks::report(Verdict::Refused(limits::NO_APERTURE, 0));
    };
    let place = table.places[i];
    packed_for(place.pen, path, columns, rows, row, bytes)
}

// The row for a pen, whatever its arrays hold.
pub fn packed_for(
    pen: Pen,
    path: &[i32],
    columns: u64,
    rows: u64,
    row: u64,
    bytes: &mut [u8],
) -> Answer
    ensures { record { answer = result; list = bytes.new } ≡ pack_result (pen_corners pen) path.now columns rows row bytes.old }
{
    packed_of(&pen.x, &pen.y, pen.count, path, columns, rows, row, bytes)
}

// The same for the pen's arrays, which are lent and not copied.
pub fn packed_of<'a>(
    xs: &'a [i8],
    ys: &'a [i8],
    count: usize,
    path: &[i32],
    columns: u64,
    rows: u64,
    row: u64,
    bytes: &mut [u8],
) -> Answer
    ensures { record { answer = result; list = bytes.new }
        ≡ pack_result (corners count xs.now ys.now) path.now columns rows row bytes.old }
{
    let checked = checks::check(path, columns, rows, row);
    let Verdict::Passed = checked else {
        return checks::report(checked);
    };
    draw::draw_packed(bytes, xs, ys, count, path, columns as usize, row)
}
