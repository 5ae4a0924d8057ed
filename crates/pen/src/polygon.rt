// The whole polygon: the quarter and its mirror images in both axes, equal corners once.
ghost use Rattle.std.specs.Prelude.{◌≡◌, [], ◌*◌, ◌<◌, get_or};
ghost use Rattle.plane.specs.Point.{pt, same};
ghost use Rattle.pen.specs.Polygon.{side, around, whole};
ghost use Rattle.pen.specs.Answer.{pen_of};
ghost use Rattle.pen.specs.Mirrored.{Boxed, Mirrorable, quarter_in, corners_of, point_of, origin};

use crate::Pen;
use limits::{PEN_MAX, QUARTER_MAX};
use quarter::Quarter;

// A corner in half pixels, y upwards.
#[derive(Clone, Copy)]
pub struct Point {
    pub x: i8,
    pub y: i8,
}

pub fn none() -> Pen
    ensures { result ≡ pen_of [] }
{
    Pen {
        count: 0,
        x: [0; PEN_MAX],
        y: [0; PEN_MAX],
    }
}

// Corner i of the right side of a quarter of n corners: up the quarter, and back along its mirror
// image in the x axis. The quarter's arrays are lent, so that no corner that is read copies them.
fn right_side<'a>(xs: &'a [i8; QUARTER_MAX], ys: &'a [i8; QUARTER_MAX], n: usize, i: usize) -> Point
    requires quarter { Mirrorable (quarter_in n xs.now ys.now) }
    requires inside { i < 2 * n }
    ensures corner { point_of result ≡ get_or (side (corners_of (quarter_in n xs.now ys.now))) i origin }
    ensures small { Boxed result }
{
    if i < n {
        return Point { x: xs[i], y: ys[i] };
    }
    let k = 2 * n - 1 - i;
    Point {
        x: xs[k],
        y: -ys[k],
    }
}

// Corner i of the walk around the polygon: the right side, and the same turned by half a turn.
fn corner_at<'a>(xs: &'a [i8; QUARTER_MAX], ys: &'a [i8; QUARTER_MAX], n: usize, i: usize) -> Point
    requires quarter { Mirrorable (quarter_in n xs.now ys.now) }
    requires inside { i < 4 * n }
    ensures corner { point_of result ≡ get_or (around (corners_of (quarter_in n xs.now ys.now))) i origin }
    ensures small { Boxed result }
{
    let half = 2 * n;
    if i < half {
        return right_side(xs, ys, n, i);
    }
    let r = right_side(xs, ys, n, i - half);
    Point { x: -r.x, y: -r.y }
}

fn equal(ax: i8, ay: i8, bx: i8, by: i8) -> bool
    ensures { result ≡ same (pt ax ay) (pt bx by) }
{
    ax == bx && ay == by
}

// The corners of the walk one after the other, each with the next one: a corner is stored unless the
// next one is equal. It is stored here, so that no function hands on all places of the pen.
pub fn mirrored(q: Quarter) -> Pen
    requires { Mirrorable q }
    ensures { result ≡ pen_of (whole (corners_of q)) }
{
    let quarter = q.count;
    let n = 4 * quarter;
    let first = corner_at(&q.x, &q.y, quarter, 0);
    let mut p = none();
    let mut ax = first.x;
    let mut ay = first.y;
    let mut i = 1;
    while i < n {
        let b = corner_at(&q.x, &q.y, quarter, i);
        if !equal(ax, ay, b.x, b.y) {
            let k = p.count;
            p.x[k] = ax;
            p.y[k] = ay;
            p.count = k + 1;
        }
        ax = b.x;
        ay = b.y;
        i += 1;
    }
    if !equal(ax, ay, first.x, first.y) {
        let k = p.count;
        p.x[k] = ax;
        p.y[k] = ay;
        p.count = k + 1;
    }
    p
}
