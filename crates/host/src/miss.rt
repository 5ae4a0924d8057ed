// Whether a stroke misses a row. To build a pen costs as much as most rows do, and a stroke of a page
// has nothing in most of its rows: so first the path is asked whether it reaches the row.
ghost use Rattle.std.specs.Prelude.{◌≡◌, true};
ghost use Rattle.limits.specs.Sizes.{Drawable};
ghost use Rattle.setting.specs.Setting.{Taken};
ghost use Rattle.host.specs.Call.{built_corners, Clear};

use crate::answer::Call;
use reach::{greatest_y, least_y};
use ties::below;

// Whether the row lies under all of the stroke, or over it: half the pen's height past the path.
pub fn misses(call: Call, path: &[i32]) -> bool
    requires taken { Taken call.setting }
    requires checked { Drawable path.now call.columns call.row }
    ensures { result ≡ true → Clear (built_corners call) call path.now }
{
    let half = 8 * ((call.setting.w + 8) / 16) as i64;
    let h = 16 * (call.row as i64);
    if below(h, least_y(path) - half) {
        return true;
    }
    !below(h, greatest_y(path) + half)
}
