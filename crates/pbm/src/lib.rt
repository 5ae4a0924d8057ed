// The raw PBM form of document 01: the header that every film starts with, put and read.
#![tactic(auto)]

ghost use Rattle.std.specs.Prelude.{◌≡◌, ◌+◌, ◌≤◌, length};
ghost use Rattle.text.specs.Put.{started};
ghost use Rattle.pbm.specs.Pbm.{headed, header_put, data_length};

use checks::Answer;
use limits::Verdict;

mod read;

pub use read::{Header, read_header};

// How many bytes a header has at most.
pub const HEADER_MAX: usize = 15;

// Puts the header with these digits of the columns and of the rows at the start of out.
fn put_digits(out: &mut [u8], columns: &[u8], rows: &[u8])
    requires { length columns.now + length rows.now + 5 ≤ length out.old }
    ensures { out.new ≡ started (headed columns.now rows.now) out.old }
{
    let at = text::put(out, 0, b"P4\n");
    let at = text::put(out, at, columns);
    let at = text::put(out, at, b" ");
    let at = text::put(out, at, rows);
    text::put(out, at, b"\n");
}

// Puts the header of a film of so many columns and rows at the start of out, and counts its bytes.
// Where a size is outside its limits (4) or out is too short (7) it is refused, and out is unchanged.
pub fn put_header(out: &mut [u8], columns: u64, rows: u64) -> Answer
    ensures { record { answer = result; list = out.new } ≡ header_put columns rows out.old }
{
    let of_raster = checks::raster_check(columns, rows);
    let Verdict::Passed = of_raster else {
        return checks::report(of_raster);
    };
    let mut columns_digits = [0u8; 20];
    let n = io::decimal(columns, &mut columns_digits);
    let mut rows_digits = [0u8; 20];
    let m = io::decimal(rows, &mut rows_digits);
    let length = n + m + 5;
    let room = checks::room_check(length, out.len());
    let Verdict::Passed = room else {
        return checks::report(room);
    };
    put_digits(out, &columns_digits[..n], &rows_digits[..m]);
    checks::done(length)
}

// How many bytes the rows of a film of so many columns and rows fill, or 0 where no film has such a
// size.
pub fn data_length(columns: u64, rows: u64) -> u64
    ensures { result ≡ data_length columns rows }
{
    let Verdict::Passed = checks::raster_check(columns, rows) else {
        return 0;
    };
    rows * bits::length_of(columns as usize) as u64
}
