// All segments of a path in some rows of a band.
ghost use Rattle.std.specs.Prelude.{◌≡◌};
ghost use Rattle.plane.specs.Point.{corners};
ghost use Rattle.bits.specs.Bits.{blackened};
ghost use Rattle.reach.specs.Reach.{InRange};
ghost use Rattle.band.specs.Rows.{shaped, path_black, PenOf, Fits, Part};

use crate::Shape;
use crate::segment::lay_segment;

pub fn lay_path<'a>(
    bytes: &mut [u8],
    xs: &'a [i8],
    ys: &'a [i8],
    count: usize,
    path: &[i32],
    s: Shape,
    from: u16,
    to: u16,
)
    requires pen { PenOf count xs.now ys.now }
    requires ranged { InRange path.now }
    requires fits { Fits s }
    requires part { Part s from to }
    ensures { bytes.new ≡ blackened (shaped (path_black (corners count xs.now ys.now) path.now) s from to) bytes.old }
{
    for k in 0..segments::count(path) {
        let a = 2 * k;
        let b = segments::end_of(path, k);
        lay_segment(
            bytes,
            xs,
            ys,
            count,
            path[a],
            path[a + 1],
            path[b],
            path[b + 1],
            s,
            from,
            to,
        );
    }
}
