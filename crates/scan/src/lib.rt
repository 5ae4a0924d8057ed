// What may be read next: the commands of a Gerber file (document 02, W4), byte by byte. A mode says
// what has been read of a command; `next` is the one table of what each byte makes of it.
#![tactic(auto)]

ghost use Rattle.std.specs.Prelude.{◌≡◌};
ghost use Rattle.scan.specs.Scanner.{begun, number_of, start_of, stepped, is_stop, is_ended, scanned_from};

mod next;

// What a whole command asks for. Nothing: the second header line, a comment, G01.
#[derive(Clone, Copy)]
pub enum Command {
    Nothing,
    Choose(u64),
    Move,
    Line,
    End,
}

// Between commands: before the first header line, before the second, after both, after M02.
#[derive(Clone, Copy)]
pub enum Gap {
    First,
    Second,
    Between,
    Ended,
}

#[derive(Clone, Copy, PartialEq, Eq)]
pub enum Axis {
    X,
    Y,
}

#[derive(Clone, Copy)]
pub enum Sign {
    Plus,
    Minus,
}

// Within a command, but for the digits of a number. Header: so many bytes of the two header lines have been
// read.
#[derive(Clone, Copy)]
pub enum Part {
    Header(usize),
    G,
    GZero,
    Linear,
    Comment,
    D,
    DZero,
    LineOp,
    MoveOp,
    Tens(u64),
    Aperture(u64),
    Axis(Axis),
    Signed(Axis, Sign),
    PlotD,
    M,
    MZero,
    EndOp,
}

// What has been read. Bad: no allowed command starts so. Whole: the last byte ended this command. Number:
// its axis, its sign, how many digits, their value.
#[derive(Clone, Copy)]
pub enum Mode {
    Bad,
    Outside(Gap),
    Whole(Command),
    Number(Axis, Sign, u64, u64),
    Inside(Part),
}

// at: how many bytes have been read. start: the place of the byte that started the command. x and y: the
// last number of each axis.
#[derive(Clone, Copy)]
pub struct Scanner {
    pub mode: Mode,
    pub at: u64,
    pub start: u64,
    pub x: i64,
    pub y: i64,
}

// The scanner, and the index in the chunk behind the last byte read.
#[derive(Clone, Copy)]
pub struct Scanned {
    pub scanner: Scanner,
    pub end: usize,
}

// Before the first byte of a file.
pub fn begin() -> Scanner
    ensures { result ≡ begun }
{
    Scanner {
        mode: Mode::Outside(Gap::First),
        at: 0,
        start: 0,
        x: 0,
        y: 0,
    }
}

// Reads a chunk from index `from` on, up to the byte that ends a command or that no command can have.
pub fn run(s: Scanner, chunk: &[u8], from: usize) -> Scanned
    ensures { result ≡ scanned_from s chunk.now from }
{
    let mut scanner = s;
    for i in from..chunk.len() {
        scanner = step(scanner, chunk[i]);
        if is_stop(scanner.mode) {
            return Scanned {
                scanner,
                end: i + 1,
            };
        }
    }
    Scanned {
        scanner,
        end: from.max(chunk.len()),
    }
}

// Whether the last byte ended a command, or began none.
fn is_stop(m: Mode) -> bool
    ensures { result ≡ is_stop m }
{
    matches!(m, Mode::Bad | Mode::Whole(_))
}

// Whether the file may end here: M02 has been read, and then line ends alone.
pub fn is_ended(m: Mode) -> bool
    ensures { result ≡ is_ended m }
{
    matches!(m, Mode::Outside(Gap::Ended) | Mode::Whole(Command::End))
}

// One byte. The count stays at the greatest number of its type: no file is so long.
#[tactic(auto, unfolding(crate::specs::Scanner::stepped))]
fn step(s: Scanner, b: u8) -> Scanner
    ensures { result ≡ stepped s b }
{
    let mode = next::next(s.mode, b);
    Scanner {
        mode,
        at: s.at.saturating_add(1),
        start: start_of(s.mode, s.at, s.start),
        x: number_of(Axis::X, mode, s.x),
        y: number_of(Axis::Y, mode, s.y),
    }
}

// Where the command starts that a byte belongs to: with the byte, where none has been begun.
fn start_of(m: Mode, at: u64, start: u64) -> u64
    ensures { result ≡ start_of m at start }
{
    match m {
        Mode::Outside(_) | Mode::Whole(_) => at,
        Mode::Bad | Mode::Number(_, _, _, _) | Mode::Inside(_) => start,
    }
}

// The number of an axis: what has been read of it, or the last one.
fn number_of(a: Axis, m: Mode, last: i64) -> i64
    ensures { result ≡ number_of a m last }
{
    match m {
        Mode::Number(axis, sign, _, value) if axis == a => next::signed(sign, value),
        _ => last,
    }
}
