// The columns of a path's segments in a row, cut to the raster.
ghost use Rattle.std.specs.Prelude.{◌≡◌, ◌<◌, Some, None, length, get_or};
ghost use Rattle.limits.specs.Sizes.{Size};
ghost use Rattle.stroke.specs.Sweep.{segments, path_points};
ghost use Rattle.cuts.specs.Cuts.{cut_to, cuts_of, Below, touched, touch_of};

use crate::Touch;
use extent::Extent;

// The columns of one segment within the raster, both included.
#[derive(Clone, Copy, PartialEq, Eq, Debug)]
pub struct Cut {
    pub left: usize,
    pub right: usize,
}

// The columns of an extent that the raster has. It can lie anywhere: both its ends are compared with
// the raster's before they become unsigned.
fn cut_span(e: Extent, columns: usize) -> Option<Cut>
    requires { Size columns }
    ensures { result ≡ cut_to columns (Some e) }
{
    let l = e.first.max(0);
    let r = e.last.min(columns as i64 - 1);
    if l <= r {
        return Some(Cut {
            left: l as usize,
            right: r as usize,
        });
    }
    None
}

// What the segments so far and one more make of the row.
fn touched(t: Touch, c: Option<Cut>) -> Touch
    ensures { result ≡ touched t c }
{
    let Some(cut) = c else {
        return t;
    };
    match t {
        Touch::Untouched => Touch::One(cut),
        Touch::One(first) => Touch::Two(first, cut),
        Touch::Two(_, _) => Touch::Several,
        Touch::Several => Touch::Several,
    }
}

// The columns of the raster that segment k has in a row, for the pen whose corners are the first
// `count` places of xs and ys.
pub fn cut_at<'a>(
    xs: &'a [i8],
    ys: &'a [i8],
    count: usize,
    path: &[i32],
    k: usize,
    columns: usize,
    row: u64,
) -> Option<Cut>
    requires segment { k < length (segments (path_points path.now)) }
    requires size { Size columns }
    ensures cut { result ≡ get_or (cuts_of xs.now ys.now count path.now columns row) k None }
    ensures below { Below columns result }
{
    let to = segments::end_of(path, k);
    let from = 2 * k;
    let e = extent::extent_at(
        xs,
        ys,
        count,
        path[from],
        path[from + 1],
        path[to],
        path[to + 1],
        row,
    )?;
    cut_span(e, columns)
}

// Several stay several, so the third segment that touches the row ends the search.
pub fn first_touches<'a>(
    xs: &'a [i8],
    ys: &'a [i8],
    count: usize,
    path: &[i32],
    columns: usize,
    row: u64,
) -> Touch
    requires { Size columns }
    ensures { result ≡ touch_of (cuts_of xs.now ys.now count path.now columns row) Touch.Untouched }
{
    let mut t = Touch::Untouched;
    for k in 0..segments::count(path) {
        t = touched(t, cut_at(xs, ys, count, path, k, columns, row));
        if let Touch::Several = t {
            return Touch::Several;
        }
    }
    t
}
