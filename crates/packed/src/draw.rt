// One row of a path that has passed the checks, as a packed row: it is cleared, and the segments are
// laid over it.
ghost use Rattle.std.specs.Prelude.{◌≡◌, ◌≤◌, length};
ghost use Rattle.limits.specs.Sizes.{Drawable};
ghost use Rattle.limits.specs.declared.Verdict.TheVariants.{Passed};
ghost use Rattle.bits.specs.Bits.{packed_length};
ghost use Rattle.plane.specs.Point.{corners};
ghost use Rattle.packed.specs.Packed.{packed_over, packed_given};

use checks::Answer;
use limits::Verdict;

// The packed row, cut to the raster.
fn pack_row<'a>(
    bytes: &mut [u8],
    xs: &'a [i8],
    ys: &'a [i8],
    count: usize,
    path: &[i32],
    columns: usize,
    row: u64,
)
    requires room { packed_length columns ≤ length bytes.old }
    requires drawable { Drawable path.now columns row }
    ensures { bytes.new ≡ packed_over (corners count xs.now ys.now) path.now columns row bytes.old }
{
    bytes[..bits::length_of(columns)].fill(0);
    cuts::lay_over(bytes, xs, ys, count, path, columns, row);
}

// A packed row has one length, known before the row is drawn.
pub fn draw_packed<'a>(
    bytes: &mut [u8],
    xs: &'a [i8],
    ys: &'a [i8],
    count: usize,
    path: &[i32],
    columns: usize,
    row: u64,
) -> Answer
    requires { Drawable path.now columns row }
    ensures { record { answer = result; list = bytes.new }
        ≡ packed_given Passed (corners count xs.now ys.now) path.now columns row bytes.old }
{
    let length = bits::length_of(columns);
    let room = checks::room_check(length, bytes.len());
    let Verdict::Passed = room else {
        return checks::report(room);
    };
    pack_row(bytes, xs, ys, count, path, columns, row);
    checks::done(length)
}
