// Reading a header: document 01's form exactly. The digits that stand where the sizes stand name the
// sizes, and the text must then start with the very header of these sizes.
ghost use Rattle.std.specs.Prelude.{◌≡◌, ◌+◌, ◌-◌, ◌*◌, ◌≤◌, ◌<◌};
ghost use Rattle.pbm.specs.Reading.{size_at, header_of, header_in};

use crate::{HEADER_MAX, put_header};

// A header that a text starts with: columns, rows and how many bytes it has; or none.
#[derive(Drop)]
pub enum Header {
    Sound(u64, u64, usize),
    Unsound,
}

// What digits read as, and where they end.
#[derive(Drop)]
pub struct Number {
    pub value: u64,
    pub end: usize,
}

// How many digits a size has at most.
const DIGITS_MAX: usize = 5;

// One digit more.
fn next(n: u64, x: u8) -> u64
    requires few { n < 100000 }
    requires digit { 48 ≤ x }
    ensures { result ≡ 10 * n + (x - 48) }
{
    10 * n + u64::from(x - b'0')
}

// The number at a place: as many digits as stand there, and no more than a size has.
fn size_at(text: &[u8], at: usize) -> Number
    requires { at ≤ 9 }
    ensures { result ≡ size_at at text.now }
{
    let end = text.len().min(at + DIGITS_MAX);
    let mut value = 0;
    for i in at..end {
        let x = text[i];
        if !x.is_ascii_digit() {
            return Number { value, end: i };
        }
        value = next(value, x);
    }
    Number {
        value,
        end: end.max(at),
    }
}

// The header of so many columns and rows, where the text starts with it.
fn header_of(columns: u64, rows: u64, text: &[u8]) -> Header
    ensures { result ≡ header_of columns rows text.now }
{
    let mut head = [0u8; HEADER_MAX];
    let answer = put_header(&mut head, columns, rows);
    if answer.refusal != limits::DONE {
        return Header::Unsound;
    }
    let n = answer.count as usize;
    if !text.starts_with(&head[..n]) {
        return Header::Unsound;
    }
    Header::Sound(columns, rows, n)
}

// The header that a text starts with.
pub fn read_header(text: &[u8]) -> Header
    ensures { result ≡ header_in text.now }
{
    let columns = size_at(text, 3);
    let rows = size_at(text, columns.end + 1);
    header_of(columns.value, rows.value, text)
}
