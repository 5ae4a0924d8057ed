// A film on standard output, band by band, so that one of any size is written with little memory.
//
// The way of the data: the top band is put before anything is written, and so shows whether anything is
// refused; the header goes out, and then each band, the top one first. What is put for each is proved to be the
// film's, and the bands one behind the other to be its rows: the loop only moves their bytes.
#![tactic(auto)]

ghost use Rattle.std.specs.Prelude.{◌≡◌, true, ◌+◌, ◌≤◌};
ghost use Rattle.bits.specs.Bits.{packed_length};
ghost use Rattle.limits.specs.declared.Verdict.TheVariants.{Passed};
ghost use Rattle.drawing.specs.Strokes.{drawing_of};
ghost use Rattle.drawing.specs.Film.{band_verdict};
ghost use Rattle.output.specs.Bands.{rows_of, next_put};

use checks::Answer;
use limits::Verdict;
use std::io::{Stderr, Stdout};

// How many bytes of the film are drawn at a time, at most: 256 rows of the widest.
const BAND: usize = 524288;

// How many rows the next band has, where so many are left: as many as fit, and one at least.
fn rows_of(columns: u64, left: u64) -> u64
    ensures { result ≡ rows_of (packed_length columns) left }
{
    let width = bits::length_of(columns as usize);
    let most = (BAND / width.max(1)).max(1);
    left.min(most as u64)
}

// Puts the next band, where so many rows from row `first` on are left: the highest of them.
fn put_next(
    settings: &[u64],
    apertures: &[u64],
    starts: &[usize],
    entries: &[i32],
    columns: u64,
    rows: u64,
    first: u64,
    left: u64,
    out: &mut [u8],
) -> Answer
    requires { first + left ≤ rows }
    ensures { record { answer = result; list = out.new }
        ≡ next_put (drawing_of settings.now apertures.now starts.now entries.now) columns rows first left out.old }
{
    let n = rows_of(columns, left);
    let lowest = first + (left - n);
    film_band::put_band(
        settings, apertures, starts, entries, columns, rows, lowest, n, out,
    )
}

// Writes the header of a film of so many columns and rows, and behind it the top band, which has been put.
fn write_put(
    to: Stdout,
    told: Stderr,
    program: &[u8],
    columns: u64,
    rows: u64,
    top: Answer,
    band: &[u8],
) -> bool
    requires { top.refusal ≡ 0 }
{
    let mut header = [0u8; pbm::HEADER_MAX];
    let answer = pbm::put_header(&mut header, columns, rows);
    if !tell::deliver(to, told, program, answer, &header) {
        return false;
    }
    tell::deliver(to, told, program, top, band)
}

// Writes the header and the top band; nothing where anything is refused.
fn write_top(
    to: Stdout,
    told: Stderr,
    program: &[u8],
    settings: &[u64],
    apertures: &[u64],
    starts: &[usize],
    entries: &[i32],
    columns: u64,
    rows: u64,
    first: u64,
    n: u64,
    out: &mut [u8],
) -> bool
    requires { first + n ≤ rows }
    ensures { result ≡ true →
        band_verdict (drawing_of settings.now apertures.now starts.now entries.now) columns rows first n ≡ Passed }
{
    let top = put_next(
        settings, apertures, starts, entries, columns, rows, first, n, out,
    );
    if top.refusal != limits::DONE {
        return tell::deliver(to, told, program, top, out);
    }
    write_put(to, told, program, columns, n, top, out)
}

// Writes the bands of the rows that are left, up to the first that could not be written.
fn write_rest(
    to: Stdout,
    told: Stderr,
    program: &[u8],
    settings: &[u64],
    apertures: &[u64],
    starts: &[usize],
    entries: &[i32],
    columns: u64,
    rows: u64,
    first: u64,
    n: u64,
    out: &mut [u8],
) -> bool
    requires { first + n ≤ rows }
{
    let mut left = n;
    while left > 0 {
        let answer = put_next(
            settings, apertures, starts, entries, columns, rows, first, left, out,
        );
        if !tell::deliver(to, told, program, answer, out) {
            return false;
        }
        left -= rows_of(columns, left);
    }
    true
}

// Writes the rows of the drawing's film from row `first` on, n of them, as a film of their own: the header and
// then the rows, the top one first. Answers whether all was written. A refusal, which a row that the film
// has not is too (5), is told in the name of the program, and nothing is written.
// No tactic looks at this function's goals: each would write the buffer out, byte by byte.
#[tactic(none)]
pub fn write(
    to: Stdout,
    told: Stderr,
    program: &[u8],
    settings: &[u64],
    apertures: &[u64],
    starts: &[usize],
    entries: &[i32],
    columns: u64,
    rows: u64,
    first: u64,
    n: u64,
) -> bool
    ensures { result ≡ true →
        band_verdict (drawing_of settings.now apertures.now starts.now entries.now) columns rows first n ≡ Passed }
{
    let mut out = [0u8; BAND];
    let of_rows = film_checks::rows_check(rows, first, n);
    if let Verdict::Refused(_, _) = of_rows {
        let answer = film_band::put_band(
            settings, apertures, starts, entries, columns, rows, first, n, &mut out,
        );
        return tell::deliver(to, told, program, answer, &out);
    }
    if !write_top(
        to, told, program, settings, apertures, starts, entries, columns, rows, first, n, &mut out,
    ) {
        return false;
    }
    let left = n - rows_of(columns, n);
    write_rest(
        to, told, program, settings, apertures, starts, entries, columns, rows, first, left,
        &mut out,
    )
}
