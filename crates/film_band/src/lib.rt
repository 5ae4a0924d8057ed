// The film of a drawing, band by band, of what the crate drawing defines. A drawing is four lists: the
// settings of the apertures from 10 on, w, p, q of each; the aperture of each stroke; where each stroke's
// entries start, with the end of the last; the entries of all.
//
// The way of the data: the film is checked (film_checks); and of a film that passes any band can be put,
// so that a film of any size is written with little memory. Its bytes are cleared, and the strokes laid
// over them (laid).
#![tactic(auto)]

ghost use Rattle.std.specs.Prelude.{◌≡◌};
ghost use Rattle.drawing.specs.Strokes.{drawing_of};
ghost use Rattle.drawing.specs.Film.{band_put};

use checks::Answer;
use limits::Verdict;

mod laid;

// Puts n rows of the film, from row `first` on, at the start of out, the top one first. Where a
// setting or a stroke is refused, a size is outside its limits, a row is none of the raster's or out
// is too short, the number of the first of these is the answer, and out is unchanged.
pub fn put_band(
    settings: &[u64],
    apertures: &[u64],
    starts: &[usize],
    entries: &[i32],
    columns: u64,
    rows: u64,
    first: u64,
    n: u64,
    out: &mut [u8],
) -> Answer
    ensures { record { answer = result; list = out.new }
        ≡ band_put (drawing_of settings.now apertures.now starts.now entries.now) columns rows first n out.old }
{
    let checked = film_checks::band_check(
        settings, apertures, starts, entries, columns, rows, first, n,
    );
    let Verdict::Passed = checked else {
        return checks::report(checked);
    };
    let width = bits::length_of(columns as usize);
    let length = n as usize * width;
    let room = checks::room_check(length, out.len());
    let Verdict::Passed = room else {
        return checks::report(room);
    };
    laid::draw(
        settings,
        apertures,
        starts,
        entries,
        columns,
        rows,
        first,
        n,
        &mut out[..length],
        width,
    );
    checks::done(length)
}
