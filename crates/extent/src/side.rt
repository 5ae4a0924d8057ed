// The sides of a segment's sweep: the pen's edges, each moved to the end that carries it further
// out, and the two lines along the path that touch the pen.
ghost use Rattle.std.specs.Prelude.{◌≡◌, List, map, ◌≤◌, ℤ, pos, neg_ℤ, length};
ghost use Rattle.integers.specs.Bound.{Abs};
ghost use Rattle.plane.specs.Point.{pt, corners};
ghost use Rattle.plane.specs.Polygon.{edge, edges, reach};
ghost use Rattle.stroke.specs.Sides.{moved, furthest, path_sides, sides};
ghost use Rattle.stroke.specs.Extent.{narrow, narrowed, reached};
ghost use Rattle.extent.specs.Held.{left, start, Steady, Way, Corner, Near, Reaching, ends, Held};

use crate::limit::{Limits, all, narrow};

// The ends A and B of a segment, in sixteenths of a pixel. Their heights count from the row that is
// asked for, which so is row 0: what room a side has in it takes no product with the row.
#[derive(Clone, Copy)]
pub struct Ends {
    pub ax: i64,
    pub ay: i64,
    pub bx: i64,
    pub by: i64,
}

// How far out a pen reaches beside a way, to its right and to its left.
#[derive(Drop)]
struct Beside {
    right: i64,
    left: i64,
}

// The edge from the corner P to the corner Q. Its normal is the direction turned right, and its
// line stands at the end where it lies further out: at A, or as much further out as B is.
fn edge(s: Limits, g: Ends, px: i64, py: i64, qx: i64, qy: i64) -> Limits
    requires steady { Steady s }
    requires near { Near g }
    requires from { Corner px py }
    requires to { Corner qx qy }
    ensures answer { left result ≡ narrow (pos 0) (moved (ends g) (edge (pt px py) (pt qx qy))) (left s) }
    ensures steady { Steady result }
{
    let a = qy - py;
    let b = px - qx;
    let at_a = a * (8 * px + g.ax) + b * (8 * py + g.ay);
    let further = (a * (g.bx - g.ax) + b * (g.by - g.ay)).max(0);
    narrow(s, a, b, at_a + further)
}

// All edges, from the last back to the first, since their order is no matter: the corner P of one is
// the Q of the one before it, so that each corner is read once.
fn edges<'a>(s: Limits, xs: &'a [i8], ys: &'a [i8], n: usize, g: Ends) -> Limits
    requires steady { Steady s }
    requires held { Held n xs.now ys.now }
    requires near { Near g }
    ensures answer { left result ≡ narrowed (pos 0) (map (moved (ends g)) (edges (corners n xs.now ys.now))) (left s) }
    ensures steady { Steady result }
{
    if n == 0 {
        return s;
    }
    let mut r = s;
    let mut qx = i64::from(xs[0]);
    let mut qy = i64::from(ys[0]);
    for i in (0..n).rev() {
        let px = i64::from(xs[i]);
        let py = i64::from(ys[i]);
        r = edge(r, g, px, py, qx, qy);
        qx = px;
        qy = py;
    }
    r
}

// How far out the pen reaches to the right of the way (u, v) and to its left: the greatest v x - u y
// and the greatest u y - v x over the corners, and 0. One look at each corner tells both.
fn furthest<'a>(xs: &'a [i8], ys: &'a [i8], n: usize, u: i64, v: i64) -> Beside
    requires held { Held n xs.now ys.now }
    requires way { Way u v }
    ensures right { result.right ≡ furthest v (neg_ℤ u) (corners n xs.now ys.now) }
    ensures left { result.left ≡ furthest (neg_ℤ v) u (corners n xs.now ys.now) }
    ensures small { Reaching result }
{
    let mut most = 0;
    let mut least = 0;
    for i in (0..n).rev() {
        let t = v * i64::from(xs[i]) - u * i64::from(ys[i]);
        most = t.max(most);
        least = t.min(least);
    }
    Beside {
        right: most,
        left: -least,
    }
}

// The two lines along the path, through A and moved out to touch the pen; a dot has none.
fn along<'a>(s: Limits, xs: &'a [i8], ys: &'a [i8], n: usize, g: Ends) -> Limits
    requires steady { Steady s }
    requires held { Held n xs.now ys.now }
    requires near { Near g }
    ensures answer { left result ≡ narrowed (pos 0) (path_sides (corners n xs.now ys.now) (ends g)) (left s) }
    ensures steady { Steady result }
{
    if g.ax == g.bx && g.ay == g.by {
        return s;
    }
    let u = g.bx - g.ax;
    let v = g.by - g.ay;
    let out = furthest(xs, ys, n, u, v);
    let at_a = v * g.ax - u * g.ay;
    let right = narrow(s, v, -u, 8 * out.right + at_a);
    narrow(right, -v, u, 8 * out.left - at_a)
}

// What all sides leave.
pub fn narrowed<'a>(xs: &'a [i8], ys: &'a [i8], n: usize, g: Ends) -> Limits
    requires held { Held n xs.now ys.now }
    requires near { Near g }
    ensures answer { left result ≡ narrowed (pos 0) (sides (corners n xs.now ys.now) (ends g)) start }
    ensures steady { Steady result }
{
    let s = edges(all(), xs, ys, n, g);
    along(s, xs, ys, n, g)
}

// How far up and down the pen reaches, whatever its corners' x are: corner 0 is the lowest.
fn reach(ys: &[i8], n: usize) -> i64
    requires { n ≤ length ys.now }
    ensures answer { (xs : List ℤ) → n ≤ length xs → result ≡ reach (corners n xs ys.now) }
    ensures small { Abs result 128 }
{
    if n == 0 {
        return 0;
    }
    -i64::from(ys[0])
}

// Whether the row is within the segment's reach.
pub fn reached(ys: &[i8], n: usize, g: Ends) -> bool
    requires held { n ≤ length ys.now }
    requires near { Near g }
    ensures { (xs : List ℤ) → n ≤ length xs → result ≡ reached (corners n xs ys.now) (ends g) (pos 0) }
{
    let far = 8 * reach(ys, n);
    g.ay.min(g.by) - far <= 0 && 0 <= g.ay.max(g.by) + far
}
