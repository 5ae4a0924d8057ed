// The table of modes, one byte at a time.
ghost use Rattle.std.specs.Prelude.{◌≡◌, true, ◌&&◌, ltb, eqb, get_or};
ghost use Rattle.scan.specs.Next.{header_bytes, is_digit, is_line_end, digit_of, only, between, header, lead, digits, number, next, after_gap, after_part, after_whole, axis, choice, after_d};
ghost use Rattle.scan.specs.Scanner.{signed};

use crate::{Axis, Command, Gap, Mode, Part, Sign};

// The two lines that every file starts with.
const HEADER: [u8; 20] = *b"%FSLAX36Y36*%%MOMM*%";

// The greatest number of nine digits.
const NINE_DIGITS: u64 = 999999999;

pub fn next(m: Mode, b: u8) -> Mode
    ensures { result ≡ next m b }
{
    match m {
        Mode::Bad => Mode::Bad,
        Mode::Outside(g) => after_gap(g, b),
        Mode::Whole(c) => after_whole(c, b),
        Mode::Number(axis, sign, count, value) => number(axis, sign, count, value, b),
        Mode::Inside(p) => after_part(p, b),
    }
}

fn digit(b: u8) -> u64
    ensures { result ≡ digit_of b }
{
    u64::from(b.saturating_sub(b'0'))
}

fn between(b: u8) -> Mode
    ensures { result ≡ between b }
{
    match b {
        b'\r' | b'\n' => Mode::Outside(Gap::Between),
        b'X' => Mode::Inside(Part::Axis(Axis::X)),
        b'Y' => Mode::Inside(Part::Axis(Axis::Y)),
        b'D' => Mode::Inside(Part::D),
        b'G' => Mode::Inside(Part::G),
        b'M' => Mode::Inside(Part::M),
        _ => Mode::Bad,
    }
}

fn is_header(i: usize, b: u8) -> bool
    ensures { result ≡ (ltb i 20 && eqb b (get_or header_bytes i 0)) }
{
    i < HEADER.len() && b == HEADER[i]
}

fn header(i: usize, b: u8) -> Mode
    ensures { result ≡ header i b }
{
    match i {
        _ if !is_header(i, b) => Mode::Bad,
        12 => Mode::Outside(Gap::Second),
        19 => Mode::Whole(Command::Nothing),
        _ => Mode::Inside(Part::Header(i + 1)),
    }
}

fn lead(g: Gap, i: usize, b: u8) -> Mode
    ensures { result ≡ lead g i b }
{
    match b {
        b'\r' | b'\n' => Mode::Outside(g),
        b'%' => Mode::Inside(Part::Header(i)),
        _ => Mode::Bad,
    }
}

fn digits(axis: Axis, sign: Sign, count: u64, value: u64, b: u8) -> Mode
    ensures { result ≡ digits axis sign count value b }
{
    if 9 <= count || 100000000 <= value {
        return Mode::Bad;
    }
    Mode::Number(axis, sign, count + 1, 10 * value + digit(b))
}

fn number(axis: Axis, sign: Sign, count: u64, value: u64, b: u8) -> Mode
    ensures { result ≡ number axis sign count value b }
{
    match b {
        b'0'..=b'9' => digits(axis, sign, count, value, b),
        b'Y' if axis == Axis::X => Mode::Inside(Part::Axis(Axis::Y)),
        b'D' => Mode::Inside(Part::PlotD),
        _ => Mode::Bad,
    }
}

fn ended(b: u8) -> Mode
    ensures { result ≡ only (is_line_end b) (Mode.Outside Gap.Ended) }
{
    match b {
        b'\r' | b'\n' => Mode::Outside(Gap::Ended),
        _ => Mode::Bad,
    }
}

fn after_whole(c: Command, b: u8) -> Mode
    ensures { result ≡ after_whole c b }
{
    match c {
        Command::End => ended(b),
        _ => between(b),
    }
}

fn after_d(b: u8) -> Mode
    ensures { result ≡ after_d b }
{
    match b {
        b'0' => Mode::Inside(Part::DZero),
        b'1'..=b'9' => Mode::Inside(Part::Tens(digit(b))),
        _ => Mode::Bad,
    }
}

fn choice(t: u64, b: u8) -> Mode
    ensures { result ≡ choice t b }
{
    if !b.is_ascii_digit() || 10 <= t {
        return Mode::Bad;
    }
    Mode::Inside(Part::Aperture(10 * t + digit(b)))
}

fn first_digit(axis: Axis, sign: Sign, b: u8) -> Mode
    ensures { result ≡ only (is_digit b) (Mode.Number axis sign 1 (digit_of b)) }
{
    match b {
        b'0'..=b'9' => Mode::Number(axis, sign, 1, digit(b)),
        _ => Mode::Bad,
    }
}

fn axis(a: Axis, b: u8) -> Mode
    ensures { result ≡ axis a b }
{
    match b {
        b'+' => Mode::Inside(Part::Signed(a, Sign::Plus)),
        b'-' => Mode::Inside(Part::Signed(a, Sign::Minus)),
        _ => first_digit(a, Sign::Plus, b),
    }
}

fn after_gap(g: Gap, b: u8) -> Mode
    ensures { result ≡ after_gap g b }
{
    match g {
        Gap::First => lead(Gap::First, 1, b),
        Gap::Second => lead(Gap::Second, 14, b),
        Gap::Between => between(b),
        Gap::Ended => ended(b),
    }
}

fn after_part(p: Part, b: u8) -> Mode
    ensures { result ≡ after_part p b }
{
    match (p, b) {
        (Part::Header(i), _) => header(i, b),
        (Part::G, b'0') => Mode::Inside(Part::GZero),
        (Part::GZero, b'1') => Mode::Inside(Part::Linear),
        (Part::GZero, b'4') => Mode::Inside(Part::Comment),
        (Part::Linear, b'*') => Mode::Whole(Command::Nothing),
        (Part::Comment, b'*') => Mode::Whole(Command::Nothing),
        (Part::Comment, _) => Mode::Inside(Part::Comment),
        (Part::D, _) => after_d(b),
        (Part::DZero, b'1') => Mode::Inside(Part::LineOp),
        (Part::DZero, b'2') => Mode::Inside(Part::MoveOp),
        (Part::LineOp, b'*') => Mode::Whole(Command::Line),
        (Part::MoveOp, b'*') => Mode::Whole(Command::Move),
        (Part::Tens(t), _) => choice(t, b),
        (Part::Aperture(n), b'*') => Mode::Whole(Command::Choose(n)),
        (Part::Axis(a), _) => axis(a, b),
        (Part::Signed(a, sign), _) => first_digit(a, sign, b),
        (Part::PlotD, b'0') => Mode::Inside(Part::DZero),
        (Part::M, b'0') => Mode::Inside(Part::MZero),
        (Part::MZero, b'2') => Mode::Inside(Part::EndOp),
        (Part::EndOp, b'*') => Mode::Whole(Command::End),
        _ => Mode::Bad,
    }
}

// A number with its sign; 0 for one of more than nine digits, which no scanner holds.
pub fn signed(sign: Sign, value: u64) -> i64
    ensures { result ≡ signed sign value }
{
    if NINE_DIGITS < value {
        return 0;
    }
    match sign {
        Sign::Plus => value as i64,
        Sign::Minus => -(value as i64),
    }
}
