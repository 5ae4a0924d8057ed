// What is checked of the film of a drawing before anything is drawn: the settings (setting_list), then
// each stroke (strokes), then the raster, and then the rows that are asked for. The crate drawing defines
// it. A drawing is four lists: the settings of the apertures from 10 on, w, p, q of each; the aperture of
// each stroke; where each stroke's entries start, with the end of the last; the entries of all.
#![tactic(auto)]

ghost use Rattle.std.specs.Prelude.{◌≡◌};
ghost use Rattle.checks.specs.Checks.{row_verdict};
ghost use Rattle.band.specs.Band.{top_row};
ghost use Rattle.drawing.specs.Strokes.{drawing_of, first_refused, film_verdict};
ghost use Rattle.drawing.specs.Film.{band_verdict};

use drawing::StrokeVerdict;
use limits::Verdict;
use setting_list::{held_count, settings_check};
use strokes::{path_of, stroke_check};

pub mod strokes;

// The first stroke that a row call refuses, asked for row 0.
pub fn first_refused(
    settings: &[u64],
    apertures: &[u64],
    starts: &[usize],
    entries: &[i32],
    columns: u64,
    rows: u64,
) -> StrokeVerdict
    ensures { result
        ≡ first_refused (drawing_of settings.now apertures.now starts.now entries.now) columns rows }
{
    let held = held_count(settings);
    for (k, aperture) in apertures.iter().enumerate() {
        let path = path_of(starts, entries, k);
        let of_stroke = stroke_check(held, *aperture, path, columns, rows);
        if let Verdict::Refused(number, place) = of_stroke {
            return StrokeVerdict::Stroke(k, number, place);
        }
    }
    StrokeVerdict::AllTaken
}

// The settings, the strokes, and then the raster by itself, which a drawing without strokes has too.
fn film_check(
    settings: &[u64],
    apertures: &[u64],
    starts: &[usize],
    entries: &[i32],
    columns: u64,
    rows: u64,
) -> Verdict
    ensures { result
        ≡ film_verdict (drawing_of settings.now apertures.now starts.now entries.now) columns rows }
{
    let of_settings = settings_check(settings);
    let Verdict::Passed = of_settings else {
        return of_settings;
    };
    let of_strokes = first_refused(settings, apertures, starts, entries, columns, rows);
    let StrokeVerdict::Stroke(k, number, place) = of_strokes else {
        return checks::raster_check(columns, rows);
    };
    Verdict::Refused(number, place)
}

// Whether there are rows, and all of them are the raster's (5). put_band checks so, after all else of the film.
pub fn rows_check(rows: u64, first: u64, n: u64) -> Verdict
    ensures { result ≡ row_verdict rows (top_row rows first n) }
{
    checks::row_check(rows, band::top_row(rows, first, n))
}

// The film, and then the rows that are asked for.
pub fn band_check(
    settings: &[u64],
    apertures: &[u64],
    starts: &[usize],
    entries: &[i32],
    columns: u64,
    rows: u64,
    first: u64,
    n: u64,
) -> Verdict
    ensures { result
        ≡ band_verdict (drawing_of settings.now apertures.now starts.now entries.now) columns rows first n }
{
    let of_film = film_check(settings, apertures, starts, entries, columns, rows);
    let Verdict::Passed = of_film else {
        return of_film;
    };
    rows_check(rows, first, n)
}
