// A path that has passed the checks, laid over the rows of a band that it reaches. Where it reaches
// none, no pen is built.
ghost use Rattle.std.specs.Prelude.{◌≡◌, ◌+◌, ◌≤◌, length};
ghost use Rattle.limits.specs.Sizes.{entries_max};
ghost use Rattle.setting.specs.Setting.{Taken};
ghost use Rattle.pen.specs.Polygon.{pen};
ghost use Rattle.bits.specs.Bits.{blackened};
ghost use Rattle.reach.specs.Reach.{InRange};
ghost use Rattle.band.specs.Rows.{shaped, path_black, Fits, Part};

use crate::Shape;
use crate::past::rows_past;
use crate::tiles::lay_tiles;
use reach::{greatest_y, least_y};
use setting::Setting;

// The stroke in the rows from `from` on and before `to`.
fn lay_pen(bytes: &mut [u8], setting: Setting, path: &[i32], s: Shape, from: u16, to: u16)
    requires taken { Taken setting }
    requires short { length path.now ≤ entries_max }
    requires ranged { InRange path.now }
    requires fits { Fits s }
    requires part { Part s from to }
    ensures { bytes.new ≡ blackened (shaped (path_black (pen setting) path.now) s from to) bytes.old }
{
    let built = pen::build(setting.w, setting.p, setting.q);
    let pen = built.pen;
    lay_tiles(bytes, &pen.x, &pen.y, pen.count, path, s, from, to);
}

// The stroke in the rows from `first` on up to the top one.
pub fn lay_drawn(bytes: &mut [u8], setting: Setting, path: &[i32], s: Shape, first: u16)
    requires taken { Taken setting }
    requires short { length path.now ≤ entries_max }
    requires ranged { InRange path.now }
    requires fits { Fits s }
    requires part { Part s first (s.top + 1) }
    ensures { bytes.new ≡ blackened (shaped (path_black (pen setting) path.now) s first (s.top + 1)) bytes.old }
{
    let half = 8 * ((setting.w + 8) / 16) as i64;
    let from = rows_past(least_y(path) - half, first, s.top + 1);
    let to = rows_past(greatest_y(path) + half, first, s.top + 1);
    if from < to {
        lay_pen(bytes, setting, path, s, from, to);
    }
}
