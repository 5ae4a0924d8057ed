// The row answer: which columns of one row a path blackens, as runs.
//
// The way of the data: the checks in document 01's order, the segments' columns in the row, cut to
// the raster (both in crates of their own), and the list of runs (runs); draw leads through these.
#![tactic(auto)]

ghost use Rattle.std.specs.Prelude.{◌≡◌};
ghost use Rattle.plane.specs.Point.{corners};
ghost use Rattle.pen.specs.Answer.{pen_corners};
ghost use Rattle.row.specs.Answer.{row_result};
ghost use Rattle.row.specs.Calls.{row_call};

use aperture::{Looked, Table};
use checks::Answer;
use limits::Verdict;
use pen::Pen;

mod draw;
mod runs;

// The black runs of one row for an aperture, as left and right columns alternating. The checks are
// those of document 01, in its order: 6, 2, 4, 5, 3, 7.
pub fn row_runs(
    table: Table,
    number: u64,
    path: &[i32],
    columns: u64,
    rows: u64,
    row: u64,
    runs: &mut [u16],
) -> Answer
    ensures { record { answer = result; list = runs.new } ≡ row_call table number path.now columns rows row runs.old }
{
    let Looked::At(i) = aperture::look_up(table, number) else {
        return checks::report(Verdict::Refused(limits::NO_APERTURE, 0));
    };
    let place = table.places[i];
    runs_for(place.pen, path, columns, rows, row, runs)
}

// The runs for a pen, whatever its arrays hold.
pub fn runs_for(
    pen: Pen,
    path: &[i32],
    columns: u64,
    rows: u64,
    row: u64,
    runs: &mut [u16],
) -> Answer
    ensures { record { answer = result; list = runs.new } ≡ row_result (pen_corners pen) path.now columns rows row runs.old }
{
    runs_of(&pen.x, &pen.y, pen.count, path, columns, rows, row, runs)
}

// The same for the pen's arrays, which are lent and not copied.
pub fn runs_of<'a>(
    xs: &'a [i8],
    ys: &'a [i8],
    count: usize,
    path: &[i32],
    columns: u64,
    rows: u64,
    row: u64,
    runs: &mut [u16],
) -> Answer
    ensures { record { answer = result; list = runs.new }
        ≡ row_result (corners count xs.now ys.now) path.now columns rows row runs.old }
{
    let checked = checks::check(path, columns, rows, row);
    let Verdict::Passed = checked else {
        return checks::report(checked);
    };
    draw::draw_runs(runs, xs, ys, count, path, columns as usize, row)
}
