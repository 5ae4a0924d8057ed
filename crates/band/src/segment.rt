// One segment in some rows of a band: its flanks are carried from row to row, and the columns between
// them are laid over the row's bytes.
ghost use Rattle.std.specs.Prelude.{◌≡◌, true, ◌+◌, ◌-◌, ◌*◌, ◌≤◌, ◌<◌, ◌^◌, get_or, pos, ◌*ℤ◌};
ghost use Rattle.integers.specs.Bound.{Abs};
ghost use Rattle.plane.specs.Point.{corners};
ghost use Rattle.limits.specs.Sizes.{in_range};
ghost use Rattle.bits.specs.Bits.{span, blackened};
ghost use Rattle.flanks.specs.Flanks.{count_to};
ghost use Rattle.extent.specs.Answer.{seg};
ghost use Rattle.band.specs.Rows.{shaped, flank_black, segment_black, PenOf, Fits, Part};

use crate::Shape;
use crate::past::rows_past;
use flanks::{Flanks, count_to};

// The columns past the left flank, up to the right one, in a row of the band.
fn lay_row(bytes: &mut [u8], s: Shape, row: u16, left: i64, right: i64)
    requires held { row ≤ s.top }
    requires fits { s.stride * (s.top - row) < 2 ^ 63 }
    ensures { bytes.new
        ≡ blackened (span (8 * (s.stride * (s.top - row)) + count_to s.columns left) (8 * (s.stride * (s.top - row)) + count_to s.columns right)) bytes.old }
{
    let at = s.stride * ((s.top - row) as usize);
    let first = count_to(s.columns, left);
    let end = count_to(s.columns, right);
    bits::lay_span_from(bytes, at, first as usize, end as usize);
}

// The rows from `from` on and before `to`, which the sweep meets all, upwards.
fn lay_rows<'a>(
    bytes: &mut [u8],
    xs: &'a [i8],
    ys: &'a [i8],
    count: usize,
    begun: Flanks,
    s: Shape,
    from: u16,
    to: u16,
)
    requires fits { Fits s }
    requires part { Part s from to }
    ensures { bytes.new ≡ blackened (shaped (flank_black count xs.now ys.now begun s.columns from) s from to) bytes.old }
{
    let mut f = begun;
    for row in from..to {
        f = flanks::rise(f, xs, ys, count, row);
        lay_row(bytes, s, row, f.left.edge.column, f.right.edge.column);
    }
}

// How far down the pen reaches, in sixteenths of a pixel: to its first corner.
fn depth(ys: &[i8]) -> i64
    ensures same { result ≡ pos 8 *ℤ get_or ys.now 0 (pos 0) }
    ensures small { Abs result 1024 }
{
    ys.first().map_or(0, |y| 8 * i64::from(*y))
}

// The segment from A to B in the rows from `from` on and before `to`. Those that its sweep does not
// meet are left out before anything is set up for it.
pub fn lay_segment<'a>(
    bytes: &mut [u8],
    xs: &'a [i8],
    ys: &'a [i8],
    count: usize,
    ax: i32,
    ay: i32,
    bx: i32,
    by: i32,
    s: Shape,
    from: u16,
    to: u16,
)
    requires pen { PenOf count xs.now ys.now }
    requires ranged { (in_range ax ≡ true) × (in_range ay ≡ true) × (in_range bx ≡ true) × (in_range by ≡ true) }
    requires fits { Fits s }
    requires part { Part s from to }
    ensures { bytes.new
        ≡ blackened (shaped (segment_black (corners count xs.now ys.now) (seg ax ay bx by)) s from to) bytes.old }
{
    let deep = depth(ys);
    let low = rows_past(i64::from(ay.min(by)) + deep, from, to);
    let high = rows_past(i64::from(ay.max(by)) - deep, from, to);
    if low < high {
        let begun = flanks::begin(xs, ys, count, ax, ay, bx, by);
        lay_rows(bytes, xs, ys, count, begun, s, low, high);
    }
}
