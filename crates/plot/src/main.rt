// plot N COLUMNS ROWS W P Q [W P Q ..] <GERBER >FILM: draws the strokes of a Gerber file as a film.
// plot rows FIRST COUNT N COLUMNS ROWS W P Q [W P Q ..] <GERBER >BAND: draws some rows of that film.
//
// N: the nanometres of a unit, a sixteenth of a pixel. COLUMNS, ROWS: the film's size in pixels. W P Q:
// the setting of aperture 10, the next three that of aperture 11, .., at most 32 of them. FIRST: the lowest
// row, from 0; COUNT: how many. The band is a film of COUNT rows, those of the whole film, so that two
// processors can draw a band each.
//
// The film is written on standard output as a raw PBM file, once the Gerber file has been read to its end
// and nothing of it is refused. Whatever else there is to tell stands on standard error, and then the film
// is missing or not whole: the program ends with no exit status of its own.
//
// The way of the data: the words are read (words), then the file in chunks (intake, with the crate marks),
// whose strokes are kept in lent lists; and of these the film is drawn band by band (the crate output).
#![tactic(auto)]

ghost use Rattle.std.specs.Prelude.{◌≡◌, ◌≤◌, true, length, take, Ok, IsOk};
ghost use Rattle.limits.specs.declared.Verdict.TheVariants.{Passed};
ghost use Rattle.drawing.specs.Strokes.{drawing_of};
ghost use Rattle.drawing.specs.Film.{band_verdict};

use limits::Verdict;
use refusal::NoFilm;

mod intake;
mod refusal;
mod words;

// How many words there can be: N, COLUMNS, ROWS and 32 settings; and with FIRST and COUNT before them.
const WORDS_MAX: usize = 99;

const ROWS_WORDS_MAX: usize = 101;

// How many strokes are kept, and entries of all their paths. A stroke has four entries at least.
const STROKES_MAX: usize = 131072;

const STARTS_MAX: usize = 131073;

const ENTRIES_MAX: usize = 524288;

// What is asked for: the nanometres of a unit, the film's size, its lowest row to draw and how many, and the
// settings.
#[derive(Clone, Copy)]
struct Wanted<'a> {
    unit: u64,
    columns: u64,
    rows: u64,
    first: u64,
    count: u64,
    settings: &'a [u64],
}

// Writes the rows of the film of the first strokes of the list, so many. Answers whether all was written.
fn write_film(
    rt: HostRuntime,
    w: Wanted,
    apertures: &[u64],
    strokes: usize,
    starts: &[usize],
    path: &[i32],
) -> Result<bool, NoFilm>
    ensures { result ≡ Ok true →
        band_verdict (drawing_of w.entry.settings.now (take strokes apertures.now) starts.now path.now)
        w.entry.columns w.entry.rows w.entry.first w.entry.count ≡ Passed }
{
    if apertures.len() < strokes {
        return Err(NoFilm::Fault);
    }
    Ok(output::write(
        rt.stdout(),
        rt.stderr(),
        b"plot",
        w.settings,
        &apertures[..strokes],
        starts,
        path,
        w.columns,
        w.rows,
        w.first,
        w.count,
    ))
}

// The lists are here and nowhere else: all that read or write them are lent them.
// No tactic looks at this function's goals: each would write the lists out, entry by entry.
#[tactic(none)]
fn draw_file(rt: HostRuntime, w: Wanted) -> Result<bool, NoFilm> {
    let mut path = [0i32; ENTRIES_MAX];
    let mut apertures = [0u64; STROKES_MAX];
    let mut starts = [0usize; STARTS_MAX];
    let strokes = intake::read(
        rt.stdin(),
        w.unit,
        w.settings,
        &mut path,
        &mut apertures,
        &mut starts,
    )?;
    write_film(rt, w, &apertures, strokes, &starts, &path)
}

// All that can be refused before the file is read: the settings (1), N (1), the raster (4), the rows (5).
fn plot(rt: HostRuntime, w: Wanted) -> Result<bool, NoFilm> {
    if let Verdict::Refused(number, place) = setting_list::settings_check(w.settings) {
        return Err(NoFilm::Setting(number, place));
    }
    if !units::is_unit(w.unit) {
        return Err(NoFilm::Unit);
    }
    if let Verdict::Refused(number, _) = checks::raster_check(w.columns, w.rows) {
        return Err(NoFilm::Raster(number));
    }
    if let Verdict::Refused(number, _) = film_checks::rows_check(w.rows, w.first, w.count) {
        return Err(NoFilm::Rows(number));
    }
    draw_file(rt, w)
}

// Whether N, COLUMNS, ROWS and the settings can be so many words.
fn form_check(count: usize) -> Result<(), NoFilm>
    ensures { IsOk result → (6 ≤ count) × (count ≤ 99) }
{
    if count < 6 || count % 3 != 0 {
        return Err(NoFilm::Form);
    }
    if WORDS_MAX < count {
        return Err(NoFilm::Settings);
    }
    Ok(())
}

// What N, COLUMNS, ROWS and the settings ask for: all rows.
fn read_wanted(numbers: &[u64]) -> Wanted<'_>
    requires { 3 ≤ length numbers.now }
{
    Wanted {
        unit: numbers[0],
        columns: numbers[1],
        rows: numbers[2],
        first: 0,
        count: numbers[2],
        settings: &numbers[3..],
    }
}

// The words are N, COLUMNS, ROWS and the settings: the list gets their numbers.
fn plot_words(rt: HostRuntime, numbers: &mut [u64]) -> Result<bool, NoFilm>
    requires { 3 ≤ length numbers.old }
{
    words::read_words(&rt, numbers, 0)?;
    plot(rt, read_wanted(numbers))
}

// Draws all rows, by so many words.
fn plot_all(rt: HostRuntime, count: usize) -> Result<bool, NoFilm> {
    form_check(count)?;
    let mut numbers = [0u64; WORDS_MAX];
    plot_words(rt, &mut numbers[..count])
}

// The words behind `rows` are FIRST and COUNT, and then as above.
fn plot_rows_words(rt: HostRuntime, numbers: &mut [u64]) -> Result<bool, NoFilm>
    requires { 5 ≤ length numbers.old }
{
    words::read_words(&rt, numbers, 1)?;
    let some_rows = Wanted {
        first: numbers[0],
        count: numbers[1],
        ..read_wanted(&numbers[2..])
    };
    plot(rt, some_rows)
}

// Draws some rows, by so many words behind `rows`.
fn plot_rows(rt: HostRuntime, count: usize) -> Result<bool, NoFilm> {
    if count < 2 {
        return Err(NoFilm::Form);
    }
    form_check(count - 2)?;
    let mut numbers = [0u64; ROWS_WORDS_MAX];
    plot_rows_words(rt, &mut numbers[..count])
}

// Draws what the words ask for. Answers whether all was written, or why there is no film.
fn draw(rt: HostRuntime) -> Result<bool, NoFilm> {
    let named = inputs::word_count(&rt);
    if named < 2 {
        return Err(NoFilm::Form);
    }
    if words::is_rows(&rt) {
        return plot_rows(rt, named - 2);
    }
    plot_all(rt, named - 1)
}

fn main(rt: HostRuntime) {
    if let Err(why) = draw(rt) {
        refusal::tell(rt.stderr(), why);
    }
}
