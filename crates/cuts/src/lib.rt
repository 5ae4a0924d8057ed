// The segments of a path in one row.
//
// The way of the data: each segment's columns are cut to the raster (cut), and laid over the bytes
// of a row (over). Most rows are touched by two segments at most, which can be known before. What
// each function promises is cited from specs/.
#![tactic(auto)]

ghost use Rattle.std.specs.Prelude.{◌≡◌, ◌&&◌, leb};
ghost use Rattle.plane.specs.Point.{corners};
ghost use Rattle.limits.specs.Sizes.{is_size};
ghost use Rattle.bits.specs.Bits.{packed_length};
ghost use Rattle.stroke.specs.Sweep.{path_points};
ghost use Rattle.cuts.specs.Cuts.{touch_in, Laid, laid};

mod cut;
mod over;

pub use cut::Cut;

// How many segments touch the row: none, one or two, with the columns of each in the path's order,
// or several.
#[derive(Clone, Copy, PartialEq, Eq, Debug)]
pub enum Touch {
    Untouched,
    One(Cut),
    Two(Cut, Cut),
    Several,
}

// No cut starts before column `first`, and none goes to column `end` or past it. Where there is no
// cut both are 0: a range of no columns, which `row` reads with no case of its own, as it would need
// for an Option.
#[derive(Clone, Copy, PartialEq, Eq, Debug)]
pub struct Bounds {
    pub first: usize,
    pub end: usize,
}

// How many segments touch the row, for the pen whose corners are the first `count` places of xs and
// ys. None does in a raster of no size that document 01 allows.
pub fn touching<'a>(
    xs: &'a [i8],
    ys: &'a [i8],
    count: usize,
    path: &[i32],
    columns: usize,
    row: u64,
) -> Touch
    ensures { result ≡ touch_in (corners count xs.now ys.now) (path_points path.now) columns row }
{
    if !limits::is_size(columns as u64) {
        return Touch::Untouched;
    }
    cut::first_touches(xs, ys, count, path, columns, row)
}

// The packed row of all segments laid over the bytes: each bit is the old one or black. Answers the
// bounds of the black columns. Nothing is done where the bytes are too few for the raster.
pub fn lay_over<'a>(
    bytes: &mut [u8],
    xs: &'a [i8],
    ys: &'a [i8],
    count: usize,
    path: &[i32],
    columns: usize,
    row: u64,
) -> Bounds
    ensures { ◌≡◌ {A = Laid} (record { bytes = bytes.new; bounds = result })
        (laid (corners count xs.now ys.now) (path_points path.now) columns row bytes.old) }
{
    if !serves(columns, bytes.len()) {
        return Bounds { first: 0, end: 0 };
    }
    over::lay_cuts(bytes, xs, ys, count, path, columns, row)
}

// Whether so many bytes serve a raster of so many columns.
fn serves(columns: usize, length: usize) -> bool
    ensures { result ≡ (is_size columns && leb (packed_length columns) length) }
{
    limits::is_size(columns as u64) && bits::length_of(columns) <= length
}
