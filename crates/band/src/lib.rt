// A stroke laid over the packed rows of a band.
//
// The way of the data: the checks in document 01's order, the rows of the band that the path
// reaches (drawn), the pen, once, tiles of these rows (tiles), the segments of the path in each
// (path), and the rows of a segment one after another, upwards, between its flanks (segment).
#![tactic(auto)]

ghost use Rattle.std.specs.Prelude.{◌≡◌};
ghost use Rattle.band.specs.Band.{top_row, room_for, band_call};

use checks::Answer;
use limits::Verdict;
use setting::Checked;

mod drawn;
mod past;
mod path;
mod segment;
mod tiles;

// The raster's columns, the band's highest row, which comes first, and how many bytes a row has.
#[derive(Clone, Copy)]
pub struct Shape {
    pub columns: u16,
    pub top: u16,
    pub stride: usize,
}

// The highest of n rows from `first` on, if the raster has all of them; else a row that it has not.
pub fn top_row(rows: u64, first: u64, n: u64) -> u64
    ensures { result ≡ top_row rows first n }
{
    if n == 0 || rows < first || rows - first < n {
        return rows;
    }
    first + (n - 1)
}

// For how many rows so many bytes have room.
fn room_for(columns: usize, stride: usize, length: usize) -> usize
    ensures { result ≡ room_for columns stride length }
{
    if stride == 0 || stride < bits::length_of(columns) {
        return 0;
    }
    length / stride
}

// Lays the stroke of a setting and a path over n rows of a raster, from row `first` on. The top one
// of them stands first in the bytes, and each `stride` bytes after the one above it. A bit becomes 1
// where the stroke is black, and else stays as it was. The checks are those of a row call, in its
// order: 1, 2, 4, 5, 3, 7. The count is the number of rows.
pub fn lay(
    w: u64,
    p: u64,
    q: u64,
    path: &[i32],
    columns: u64,
    rows: u64,
    first: u64,
    n: u64,
    bytes: &mut [u8],
    stride: usize,
) -> Answer
    ensures { record { answer = result; list = bytes.new } ≡ band_call (record { w = w; p = p; q = q }) path.now columns rows first n stride bytes.old }
{
    let Checked::Taken(s) = setting::check(w, p, q) else {
        return checks::report(Verdict::Refused(limits::BAD_SETTING, 0));
    };
    let top = top_row(rows, first, n);
    let checked = checks::check(path, columns, rows, top);
    let Verdict::Passed = checked else {
        return checks::report(checked);
    };
    let room = checks::room_check(n as usize, room_for(columns as usize, stride, bytes.len()));
    let Verdict::Passed = room else {
        return checks::report(room);
    };
    let shape = Shape {
        columns: columns as u16,
        top: top as u16,
        stride,
    };
    drawn::lay_drawn(bytes, s, path, shape, first as u16);
    checks::done(n as usize)
}
