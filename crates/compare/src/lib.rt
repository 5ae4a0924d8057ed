// One film laid over another: what is told of two raw PBM files, made row by row in a lent buffer.
// Whoever reads the files asks here what to refuse, and hands over a row of each film at a time, the
// top row first.
//
// The way of the data: the two headers (headers_check), the ends of both files (last_byte,
// ends_check), the line of a refusal (put_refusal) or the rows one after the other (next_row).
#![tactic(auto)]

ghost use Rattle.std.specs.Prelude.{◌≡◌};
ghost use Rattle.text.specs.Put.{put_at};
ghost use Rattle.text.specs.Ascii.{ascii};
ghost use Rattle.compare.specs.Refusals.{name, sizes_of, last_byte, ends_of};
ghost use Rattle.compare.specs.Step.{stepped};

use pbm::Header;

// What is refused of two files, in this order: a variant for each line that is told.
#[derive(Clone, Copy, PartialEq, Eq, Debug)]
pub enum Refusal {
    BadHeader1,
    BadHeader2,
    UnequalSizes,
    ShortData1,
    ShortData2,
    BytesAfter1,
    BytesAfter2,
}

// The size that two films share, and where the data of both start.
#[derive(Clone, Copy, PartialEq, Eq, Debug)]
pub struct Sizes {
    pub columns: u64,
    pub rows: u64,
    pub start: usize,
}

// Films of so many columns, and how many rows are left to report: the next is row left - 1.
#[derive(Clone, Copy, PartialEq, Eq, Debug)]
pub struct Overlay {
    pub columns: u64,
    pub left: u64,
}

// What two headers say: bad ones are told before unequal sizes.
pub fn headers_check(first: Header, second: Header) -> Result<Sizes, Refusal>
    ensures { result ≡ sizes_of first second }
{
    let Header::Sound(columns, rows, start) = first else {
        return Err(Refusal::BadHeader1);
    };
    let Header::Sound(wide, high, _) = second else {
        return Err(Refusal::BadHeader2);
    };
    if columns == wide && rows == high {
        Ok(Sizes {
            columns,
            rows,
            start,
        })
    } else {
        Err(Refusal::UnequalSizes)
    }
}

// Where a film's last byte stands in its file, its data starting at `start`. Where there is no such
// film, the byte before them or 0.
pub fn last_byte(columns: u64, rows: u64, start: usize) -> u64
    ensures { result ≡ last_byte columns rows start }
{
    if pbm::HEADER_MAX < start {
        return 0;
    }
    let end = start as u64 + pbm::data_length(columns, rows);
    end.saturating_sub(1)
}

// What the ends of the files say: how many bytes each has from its film's last byte on.
pub fn ends_check(first: usize, second: usize) -> Result<(), Refusal>
    ensures { result ≡ ends_of first second }
{
    if first < 1 {
        return Err(Refusal::ShortData1);
    }
    if second < 1 {
        return Err(Refusal::ShortData2);
    }
    if 1 < first {
        return Err(Refusal::BytesAfter1);
    }
    if 1 < second {
        return Err(Refusal::BytesAfter2);
    }
    Ok(())
}

impl Refusal {
    // Its line.
    fn line(self) -> &'static [u8]
        ensures { result.now ≡ ascii (name self) }
    {
        match self {
            Refusal::BadHeader1 => b"refused: bad header, film 1\n",
            Refusal::BadHeader2 => b"refused: bad header, film 2\n",
            Refusal::UnequalSizes => b"refused: unequal sizes\n",
            Refusal::ShortData1 => b"refused: short data, film 1\n",
            Refusal::ShortData2 => b"refused: short data, film 2\n",
            Refusal::BytesAfter1 => b"refused: bytes after the last row, film 1\n",
            Refusal::BytesAfter2 => b"refused: bytes after the last row, film 2\n",
        }
    }
}

// Puts a refusal's line at the start of out, and answers how many bytes it has. Where it does not
// fit nothing is put, and the answer is 0.
pub fn put_refusal(r: Refusal, out: &mut [u8]) -> usize
    ensures { record { end = result; buffer = out.new } ≡ put_at out.old 0 (ascii (name r)) }
{
    text::put(out, 0, r.line())
}

// Puts the text of the next row at the start of out: the line of its number, and a line for each
// pixel in which the two packed rows differ. Answers how many bytes it has, and a row less is left.
// Where no row is left, a packed row is not whole or out is shorter than any row's text may be,
// nothing happens.
pub fn next_row(o: &mut Overlay, a: &[u8], b: &[u8], out: &mut [u8]) -> Option<usize>
    ensures { record { overlay = o.new; count = result; buffer = out.new } ≡ stepped o.old a.now b.now out.old }
{
    let row = o.left.checked_sub(1)?;
    let count = lines::put_row(out, a, b, o.columns, row)?;
    o.left = row;
    Some(count)
}
