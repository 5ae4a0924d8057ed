// The black columns of one segment in one row.
//
// The way of the data: the segment and the row are checked against document 01's limits, the sides
// of the segment's sweep (side), counted from the row, narrow the row's columns one after the other
// (limit), and what is left is the answer. What each function promises is cited from specs/.
#![tactic(auto)]

ghost use Rattle.std.specs.Prelude.{◌≡◌, ◌&&◌, ◌<◌, pos};
ghost use Rattle.plane.specs.Point.{corners};
ghost use Rattle.pen.specs.Answer.{pen_corners};
ghost use Rattle.limits.specs.Sizes.{in_range, raster_max};
ghost use Rattle.extent.specs.Answer.{allowed, seg, extent_of};
ghost use Rattle.extent.specs.Held.{ends, from_row};

use pen::Pen;

mod limit;
mod side;

use side::Ends;

// The first and the last black column, which may lie outside any raster.
#[derive(Clone, Copy, PartialEq, Eq, Debug)]
pub struct Extent {
    pub first: i64,
    pub last: i64,
}

// Whether both coordinates of a point are within document 01's limits.
fn both(x: i32, y: i32) -> bool
    ensures { result ≡ (in_range x && in_range y) }
{
    limits::in_range(x) && limits::in_range(y)
}

// Whether the segment and the row are within the limits: rows count from 0, and a raster has at most
// 16,384. So all sums and products that follow fit 64 bits.
fn allowed(ax: i32, ay: i32, bx: i32, by: i32, row: u64) -> bool
    ensures { result ≡ allowed ax ay bx by row }
{
    both(ax, ay) && (both(bx, by) && row < limits::RASTER_MAX as u64)
}

// The ends in the numbers that the rest counts with: heights from the row.
fn from_row(ax: i32, ay: i32, bx: i32, by: i32, row: u64) -> Ends
    requires { row < raster_max }
    ensures { ends result ≡ from_row (pos row) (seg ax ay bx by) }
{
    let at = 16 * (row as i64);
    Ends {
        ax: i64::from(ax),
        ay: i64::from(ay) - at,
        bx: i64::from(bx),
        by: i64::from(by) - at,
    }
}

// The extent of the segment from A to B in a row, for the pen whose corners are the first `count`
// places of xs and ys, in half pixels. Path coordinates count sixteenths of a pixel. None
// outside document 01's limits.
pub fn extent_at<'a>(
    xs: &'a [i8],
    ys: &'a [i8],
    count: usize,
    ax: i32,
    ay: i32,
    bx: i32,
    by: i32,
    row: u64,
) -> Option<Extent>
    ensures { result ≡ extent_of (corners count xs.now ys.now) ax ay bx by row }
{
    if !allowed(ax, ay, bx, by, row) {
        return None;
    }
    // Corners that the arrays do not have are none.
    let n = count.min(xs.len().min(ys.len()));
    let g = from_row(ax, ay, bx, by, row);
    // Most rows miss most segments.
    if !side::reached(ys, n, g) {
        return None;
    }
    limit::columns(side::narrowed(xs, ys, n, g))
}

// The same for a pen.
pub fn extent_of(pen: Pen, ax: i32, ay: i32, bx: i32, by: i32, row: u64) -> Option<Extent>
    ensures { result ≡ extent_of (pen_corners pen) ax ay bx by row }
{
    extent_at(&pen.x, &pen.y, pen.count, ax, ay, bx, by, row)
}
