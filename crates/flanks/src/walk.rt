// Up the two sides of a pen, over the arrays that hold its corners.
ghost use Rattle.std.specs.Prelude.{◌≡◌, ◌-◌, ◌≤◌, ◌^◌, get_or, pos, neg_ℤ};
ghost use Rattle.integers.specs.Bound.{Abs};
ghost use Rattle.flanks.specs.Walk.{place_of, height_at, walked, turn_at, tangent_of};

use ties::below;

// A coordinate by its place; 0 past the end.
pub fn at(zs: &[i8], i: usize) -> i64
    ensures same { result ≡ get_or zs.now i (pos 0) }
    ensures small { Abs result 128 }
{
    zs.get(i).map_or(0, |z| i64::from(*z))
}

// The place of corner k of a side, of n corners: up the right side as they come, and up the left one
// backwards, from the same corner 0.
pub fn place_of(k: usize, n: usize, left: bool) -> usize
    ensures { result ≡ place_of k n left }
{
    if left && 0 < k {
        n.saturating_sub(k)
    } else {
        k
    }
}

// The height of corner k of a side over the pen's middle, in sixteenths of a pixel.
pub fn height(ys: &[i8], n: usize, left: bool, k: usize) -> i64
    ensures same { result ≡ height_at ys.now n left k }
    ensures small { Abs result 1024 }
{
    8 * at(ys, place_of(k, n, left))
}

// The last corner of a side, from corner k on, before the first that a row at the height y over the
// pen's middle lies below.
pub fn walk(ys: &[i8], n: usize, left: bool, y: i64, k: usize) -> usize
    ensures answer { result ≡ walked ys.now n left y k }
    ensures inside { result ≤ n - 1 }
{
    if n == 0 {
        return 0;
    }
    let last = n - 1;
    for i in k.min(last)..last {
        if below(y, height(ys, n, left, i + 1)) {
            return i;
        }
    }
    last
}

// How far to the right of the direction (u, v) place i lies.
fn turn<'a>(xs: &'a [i8], ys: &'a [i8], u: i64, v: i64, i: usize) -> i64
    requires across { Abs u (2 ^ 33) }
    requires up { Abs v (2 ^ 33) }
    ensures { result ≡ turn_at xs.now ys.now u v i }
{
    v * at(xs, i) - u * at(ys, i)
}

// The first place that lies furthest to the left of a direction, and the first furthest to its right.
#[derive(Clone, Copy)]
pub struct Furthest {
    pub left: usize,
    pub right: usize,
}

// Those of n places, for the direction (u, v), in one look at each.
pub fn tangents<'a>(xs: &'a [i8], ys: &'a [i8], n: usize, u: i64, v: i64) -> Furthest
    requires across { Abs u (2 ^ 33) }
    requires up { Abs v (2 ^ 33) }
    ensures left { result.left ≡ tangent_of xs.now ys.now n (neg_ℤ u) (neg_ℤ v) }
    ensures right { result.right ≡ tangent_of xs.now ys.now n u v }
{
    let mut least = turn(xs, ys, u, v, 0);
    let mut most = least;
    let mut left = 0;
    let mut right = 0;
    for i in 1..n {
        let t = turn(xs, ys, u, v, i);
        if t < least {
            least = t;
            left = i;
        }
        if most < t {
            most = t;
            right = i;
        }
    }
    Furthest { left, right }
}
