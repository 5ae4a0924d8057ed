// The rows of a band that a path reaches, a tile of them at a time: a long path then comes back to
// the same bytes while they are at hand. Any height of a tile is right.
ghost use Rattle.std.specs.Prelude.{◌≡◌, ◌≤◌, length};
ghost use Rattle.limits.specs.Sizes.{entries_max, raster_max};
ghost use Rattle.plane.specs.Point.{corners};
ghost use Rattle.bits.specs.Bits.{blackened};
ghost use Rattle.reach.specs.Reach.{InRange};
ghost use Rattle.band.specs.Rows.{shaped, path_black, PenOf, Fits, Part};

use crate::Shape;
use crate::path::lay_path;

const TILE: u16 = 256;

// How far the path goes up and down in all, in sixteenths of a pixel.
fn climb(path: &[i32]) -> u64
    requires { length path.now ≤ entries_max }
{
    let mut sum = 0;
    for i in (3..path.len()).step_by(2) {
        sum += u64::from(path[i - 2].abs_diff(path[i]));
    }
    sum
}

// Tiles where the path's segments meet more rows than it takes to look at each of them in every
// tile; else all rows in one.
fn height(path: &[i32], rows: u16) -> u16
    requires { length path.now ≤ entries_max }
    ensures some { 1 ≤ result }
    ensures low { result ≤ raster_max }
{
    let looks = (path.len() / 2) as u64 * u64::from(rows / TILE);
    if looks < climb(path) / 16 {
        return TILE;
    }
    limits::RASTER_MAX as u16
}

pub fn lay_tiles<'a>(
    bytes: &mut [u8],
    xs: &'a [i8],
    ys: &'a [i8],
    count: usize,
    path: &[i32],
    s: Shape,
    from: u16,
    to: u16,
)
    requires short { length path.now ≤ entries_max }
    requires pen { PenOf count xs.now ys.now }
    requires ranged { InRange path.now }
    requires fits { Fits s }
    requires part { Part s from to }
    ensures { bytes.new ≡ blackened (shaped (path_black (corners count xs.now ys.now) path.now) s from to) bytes.old }
{
    let height = height(path, to - from);
    for t in (from..to).step_by(height as usize) {
        let end = t + height.min(to - t);
        lay_path(bytes, xs, ys, count, path, s, t, end);
    }
}
