// From one edge of a flank to the next.
ghost use Rattle.std.specs.Prelude.{◌≡◌, ◌^◌};
ghost use Rattle.integers.specs.Bound.{Abs};
ghost use Rattle.edge.specs.Edge.{raised};
ghost use Rattle.flanks.specs.Flanks.{on_pen, turned, climbed};

use crate::walk::{at, place_of, walk};
use crate::{Ends, Flank};
use ties::below;

// On the pen's edge at the end (ex, ey) that the height h meets. The walk goes on from corner k.
fn on_pen<'a>(
    xs: &'a [i8],
    ys: &'a [i8],
    n: usize,
    left: bool,
    tangent: usize,
    k: usize,
    ex: i64,
    ey: i64,
    h: i64,
) -> Flank
    requires across { Abs ex (2 ^ 32) }
    requires up { Abs ey (2 ^ 32) }
    requires row { Abs h (2 ^ 32) }
    ensures { result ≡ on_pen xs.now ys.now n left tangent k ex ey h }
{
    let corner = walk(ys, n, left, h - ey, k);
    let p = place_of(corner, n, left);
    let q = place_of(corner + 1, n, left);
    let px = ex + 8 * at(xs, p);
    let py = ey + 8 * at(ys, p);
    let qx = ex + 8 * at(xs, q);
    let top = ey + 8 * at(ys, q);
    Flank {
        edge: edge::place(px, py, qx, top, h),
        top,
        corner,
        tangent,
    }
}

// The next edge of the outline: of the pen at the lower end, up to where the segment's own edge
// begins; along the segment; or of the pen at the upper end.
fn turned<'a>(f: Flank, xs: &'a [i8], ys: &'a [i8], n: usize, left: bool, e: Ends, h: i64) -> Flank
    requires { Abs h (2 ^ 32) }
    ensures { result ≡ turned f xs.now ys.now n left e h }
{
    let t = f.tangent;
    let tx = 8 * at(xs, t);
    let ty = 8 * at(ys, t);
    let lx = i64::from(e.lx);
    let ly = i64::from(e.ly);
    let ux = i64::from(e.ux);
    let uy = i64::from(e.uy);
    if below(h, ly + ty) {
        let lower = on_pen(xs, ys, n, left, t, f.corner, lx, ly, h);
        return Flank {
            top: lower.top.min(ly + ty),
            ..lower
        };
    }
    if below(h, uy + ty) {
        return Flank {
            edge: edge::place(lx + tx, ly + ty, ux + tx, uy + ty, h),
            top: uy + ty,
            ..f
        };
    }
    on_pen(xs, ys, n, left, t, f.corner, ux, uy, h)
}

// One row up on the same edge.
pub fn stay(f: Flank) -> Flank
    ensures { result ≡ record { edge = raised f.edge; top = f.top; corner = f.corner; tangent = f.tangent } }
{
    Flank {
        edge: edge::raise(f.edge),
        ..f
    }
}

// One row up, to the height h: on the same edge, or on the next one.
pub fn climb<'a>(
    f: Flank,
    xs: &'a [i8],
    ys: &'a [i8],
    n: usize,
    left: bool,
    e: Ends,
    h: i64,
) -> Flank
    requires { Abs h (2 ^ 32) }
    ensures { result ≡ climbed f xs.now ys.now n left e h }
{
    if below(h, f.top) {
        return stay(f);
    }
    turned(f, xs, ys, n, left, e, h)
}
