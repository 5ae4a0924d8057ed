// Lines and columns of a file that is read in chunks: a line ends with LF, and both count from 1.
//
// What is refused is told at the first byte of its command, or at the file's end. The first byte may have
// come chunks ago, since a comment can be megabytes long: so its line and column are kept.
#![tactic(auto)]

ghost use Rattle.std.specs.Prelude.{◌≡◌, length, ◌==◌};
ghost use Rattle.marks.specs.Marks.{behind, past, front_of, begun, advanced, mark_of};

// A byte's place in the file, from 0, with its line and its column.
#[derive(Clone, Copy)]
pub struct Mark {
    pub at: u64,
    pub line: u64,
    pub column: u64,
}

// command: the first byte of the last command that was begun. end: behind the last byte read.
#[derive(Clone, Copy)]
pub struct Marks {
    pub command: Mark,
    pub end: Mark,
}

// The file's first byte.
const FIRST: Mark = Mark {
    at: 0,
    line: 1,
    column: 1,
};

// Before the first byte of a file.
pub fn begin() -> Marks
    ensures { result ≡ begun }
{
    Marks {
        command: FIRST,
        end: FIRST,
    }
}

// The place behind a byte. No file is so long that a number wraps.
fn behind(m: Mark, byte: u8) -> Mark
    ensures { result ≡ behind m byte }
{
    let at = m.at.wrapping_add(1);
    if byte == b'\n' {
        return Mark {
            at,
            line: m.line.wrapping_add(1),
            column: 1,
        };
    }
    Mark {
        at,
        column: m.column.wrapping_add(1),
        ..m
    }
}

// The place behind all these bytes.
fn past(m: Mark, bytes: &[u8]) -> Mark
    ensures { result ≡ past m bytes.now }
{
    bytes.iter().fold(m, |mark, byte| behind(mark, *byte))
}

// How many bytes of a chunk, which starts at `from` in the file, come before byte `start` of the file. All
// of them where it has no such byte.
fn before(chunk: &[u8], from: u64, start: u64) -> usize
    ensures { result ≡ front_of from (length chunk.now) start }
{
    match start.checked_sub(from) {
        Some(k) => chunk.len().min(k as usize),
        None => chunk.len(),
    }
}

// A chunk has been read, and the last command that was begun starts at byte `start` of the file: in this
// chunk, or in one before.
pub fn advance(m: Marks, chunk: &[u8], start: u64) -> Marks
    ensures { result ≡ advanced m chunk.now start }
{
    let (front, rest) = chunk.split_at(before(chunk, m.end.at, start));
    let here = past(m.end, front);
    let end = past(here, rest);
    if rest.is_empty() {
        return Marks { end, ..m };
    }
    Marks { command: here, end }
}

// Whether a refusal's place is the file's end. Every other is a byte that has been read.
pub fn is_end(m: Marks, place: u64) -> bool
    ensures { result ≡ (place == m.end.at) }
{
    place == m.end.at
}

// The mark of a refusal's place: the file's end, or else the last command's first byte.
pub fn mark_of(m: Marks, place: u64) -> Mark
    ensures { result ≡ mark_of m place }
{
    if is_end(m, place) { m.end } else { m.command }
}
