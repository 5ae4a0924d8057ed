// One row of a path that has passed the checks, as runs.
//
// Most rows are touched by two segments at most, and need no bytes. Where several touch a row they
// are laid over the bytes of one, and the runs are those of its bits.
ghost use Rattle.std.specs.Prelude.{◌≡◌, [], ◌∷◌, map, All, ◌*◌, ◌≤◌, ◌<◌, length};
ghost use Rattle.limits.specs.Sizes.{raster_max, Drawable};
ghost use Rattle.limits.specs.declared.Verdict.TheVariants.{Passed};
ghost use Rattle.plane.specs.Point.{corners};
ghost use Rattle.stroke.specs.Runs.{runs_of};
ghost use Rattle.bits.specs.Bits.{bit_at};
ghost use Rattle.cuts.specs.Cuts.{Bounded};
ghost use Rattle.checks.specs.Answer.{given};
ghost use Rattle.row.specs.Answer.{runs_offer, row_given};
ghost use Rattle.row.specs.Together.{Inside, between, together};

use crate::runs::{list_runs, write_run};
use checks::Answer;
use cuts::Touch;
use limits::Verdict;

// How many bytes the longest row fills.
const ROW_BYTES: usize = limits::RASTER_MAX / 8;

// A row of a few runs.
fn write_few(runs: &mut [u16], few: &[(usize, usize)]) -> Answer
    requires { All (λ r. Inside r.0 r.1) few.now }
    ensures { record { answer = result; list = runs.new } ≡ given Passed (runs_offer (map between few.now) runs.old) }
{
    let room = checks::room_check(few.len(), runs.len() / 2);
    let Verdict::Passed = room else {
        return checks::report(room);
    };
    for (k, r) in few.iter().enumerate() {
        write_run(runs, k, r.0, r.1);
    }
    checks::done(few.len())
}

fn write_single(runs: &mut [u16], left: usize, right: usize) -> Answer
    requires { Inside left right }
    ensures { record { answer = result; list = runs.new } ≡ given Passed (runs_offer (record { left = left; right = right } ∷ []) runs.old) }
{
    write_few(runs, &[(left, right)])
}

// A row of two segments, one from a to b, the other from c to d. They come in the path's order, and
// may overlap.
fn write_two(runs: &mut [u16], a: usize, b: usize, c: usize, d: usize) -> Answer
    requires first { Inside a b }
    requires second { Inside c d }
    ensures { record { answer = result; list = runs.new }
        ≡ given Passed (runs_offer (together (record { left = a; right = b }) (record { left = c; right = d })) runs.old) }
{
    if b + 1 < c {
        return write_few(runs, &[(a, b), (c, d)]);
    }
    if d + 1 < a {
        return write_few(runs, &[(c, d), (a, b)]);
    }
    write_single(runs, a.min(c), b.max(d))
}

// The runs are counted before any is written, so that a refusal leaves the list as it was.
fn write_bits(runs: &mut [u16], bytes: &[u8], first: usize, end: usize) -> Answer
    requires in_bytes { end ≤ 8 * length bytes.now }
    requires in_raster { end ≤ raster_max }
    requires bounded { Bounded (bit_at bytes.now) first end }
    ensures { record { answer = result; list = runs.new } ≡ given Passed (runs_offer (runs_of (bit_at bytes.now) end) runs.old) }
{
    let count = list_runs::<false>(bytes, first, end, &mut []);
    let room = checks::room_check(count, runs.len() / 2);
    let Verdict::Passed = room else {
        return checks::report(room);
    };
    list_runs::<true>(bytes, first, end, runs);
    checks::done(count)
}

fn several_runs<'a>(
    runs: &mut [u16],
    xs: &'a [i8],
    ys: &'a [i8],
    count: usize,
    path: &[i32],
    columns: usize,
    row: u64,
) -> Answer
    requires { Drawable path.now columns row }
    ensures { record { answer = result; list = runs.new }
        ≡ row_given Passed (corners count xs.now ys.now) path.now columns row runs.old }
{
    let mut bytes: [u8; ROW_BYTES] = [0; ROW_BYTES];
    let b = cuts::lay_over(&mut bytes, xs, ys, count, path, columns, row);
    write_bits(runs, &bytes, b.first, b.end)
}

// The runs of the row, cut to the raster. No run needs no room.
pub fn draw_runs<'a>(
    runs: &mut [u16],
    xs: &'a [i8],
    ys: &'a [i8],
    count: usize,
    path: &[i32],
    columns: usize,
    row: u64,
) -> Answer
    requires { Drawable path.now columns row }
    ensures { record { answer = result; list = runs.new }
        ≡ row_given Passed (corners count xs.now ys.now) path.now columns row runs.old }
{
    match cuts::touching(xs, ys, count, path, columns, row) {
        Touch::Untouched => checks::done(0),
        Touch::One(c) => write_single(runs, c.left, c.right),
        Touch::Two(a, b) => write_two(runs, a.left, a.right, b.left, b.right),
        Touch::Several => several_runs(runs, xs, ys, count, path, columns, row),
    }
}
