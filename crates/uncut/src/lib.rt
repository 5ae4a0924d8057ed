// How far a stroke reaches beyond any raster: the first and the last black column of one segment in
// one row, as signed numbers.
//
// It is asked as the engine's start is, without a raster, and answered by the extent, which the row
// answer cuts to its raster.
#![tactic(auto)]

ghost use Rattle.std.specs.Prelude.{◌≡◌, ◌<◌, None, length};
ghost use Rattle.limits.specs.Sizes.{raster_max, Drawable};
ghost use Rattle.pen.specs.Answer.{pen_corners};
ghost use Rattle.stroke.specs.Sweep.{segments, path_points};
ghost use Rattle.checks.specs.Answer.{answer_of};
ghost use Rattle.uncut.specs.Uncut.{first_extent, reached_in};

use aperture::{Looked, Table};
use checks::Answer;
use extent::Extent;
use limits::Verdict;
use pen::Pen;

// What is answered, and how far the segment reaches: nowhere, too, where the call is refused.
#[derive(Drop)]
pub struct Reached {
    pub answer: Answer,
    pub extent: Option<Extent>,
}

fn refused(v: Verdict) -> Reached
    ensures { result ≡ record { answer = answer_of v; extent = None } }
{
    Reached {
        answer: checks::report(v),
        extent: None,
    }
}

// The extent of a path's first segment, which is its only one where it has one or two points.
fn first_extent(pen: Pen, path: &[i32], row: u64) -> Option<Extent>
    requires segment { 0 < length (segments (path_points path.now)) }
    requires drawable { Drawable path.now raster_max row }
    ensures { result ≡ first_extent (pen_corners pen) (segments (path_points path.now)) row }
{
    let end = segments::end_of(path, 0);
    extent::extent_of(pen, path[0], path[1], path[end], path[end + 1], row)
}

// The columns that the path's one segment has in a row, for the aperture's pen, from the first to the
// last, wherever they lie. Refused are, in this order, an aperture without a pen (6), a path of other
// than one or two points (2), a row that no raster has (5) and a bad coordinate (3).
pub fn reach(table: Table, number: u64, path: &[i32], row: u64) -> Reached
    ensures { result ≡ reached_in table number path.now row }
{
    let Looked::At(i) = aperture::look_up(table, number) else {
        return refused(Verdict::Refused(limits::NO_APERTURE, 0));
    };
    let segment = checks::segment_check(path);
    let Verdict::Passed = segment else {
        return refused(segment);
    };
    // The greatest raster there is has every row that any has.
    let most = limits::RASTER_MAX as u64;
    let checked = checks::check(path, most, most, row);
    let Verdict::Passed = checked else {
        return refused(checked);
    };
    let place = table.places[i];
    Reached {
        answer: checks::done(0),
        extent: first_extent(place.pen, path, row),
    }
}
