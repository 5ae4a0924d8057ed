// Why there is no film, as it is told on standard error in the name of the program: the number of a refusal,
// its place and what it means; or something else.
use marks::Mark;
use std::io::Stderr;
use std::{fmt, io};

// Of the words: their form, more than 32 settings, or one that is no number, the first being 1. Of what they say:
// the number of the refusal, and for a setting its place, from 0. Of the file: the refusal's number, where it is,
// and whether that is the file's end. And a read that failed; and what cannot be: by what the calls promise no
// branch that makes it is taken.
#[derive(Drop)]
pub enum NoFilm {
    Form,
    Settings,
    Word(usize),
    Setting(u64, u64),
    Unit,
    Raster(u64),
    Rows(u64),
    File(u64, Mark, bool),
    Unread(io::Error),
    Fault,
}

impl From<io::Error> for NoFilm {
    fn from(e: io::Error) -> NoFilm {
        NoFilm::Unread(e)
    }
}

// As "plot: 4 at ", with which every refusal starts.
#[derive(Clone, Copy)]
struct Start(u64);

impl fmt::Display for Start {
    fn fmt<W: fmt::Write>(&self, f: &mut fmt::Formatter<W>) -> fmt::Result {
        let number = self.0;
        write!(f, "plot: {number} at ")
    }
}

// What is told without a number.
fn put_line<W: fmt::Write>(f: &mut fmt::Formatter<W>, why: &str) -> fmt::Result {
    writeln!(f, "plot: {why}")
}

// A line of its own, but for a read that failed. Bytes count from 0, settings, lines and columns from 1.
impl fmt::Display for NoFilm {
    fn fmt<W: fmt::Write>(&self, f: &mut fmt::Formatter<W>) -> fmt::Result {
        match self {
            NoFilm::Form => f.write_str(
                "usage: plot [rows FIRST COUNT] N COLUMNS ROWS W P Q [W P Q ..] <GERBER >FILM\n",
            ),
            NoFilm::Settings => put_line(f, "more than 32 settings"),
            NoFilm::Word(word) => write!(f, "plot: word {word} is no number below 2^64\n"),
            NoFilm::Setting(number, place) => {
                let start = Start(*number);
                let setting = place.wrapping_add(1);
                write!(
                    f,
                    "{start}setting {setting}: outside the limits: W and W P / Q are 16 to 512, P and Q 1 to 16\n"
                )
            }
            NoFilm::Unit => {
                let start = Start(limits::BAD_SETTING);
                write!(
                    f,
                    "{start}N: outside the limits: a unit is 1 to 1,000,000 nanometres\n"
                )
            }
            NoFilm::Raster(number) => {
                let start = Start(*number);
                write!(
                    f,
                    "{start}COLUMNS or ROWS: outside the limits: each is 1 to 16,384\n"
                )
            }
            NoFilm::Rows(number) => {
                let start = Start(*number);
                write!(f, "{start}FIRST or COUNT: the film has no such rows\n")
            }
            NoFilm::File(number, mark, is_end) => {
                let start = Start(*number);
                let Mark { at, line, column } = *mark;
                let meaning = meaning(*number, *is_end);
                writeln!(
                    f,
                    "{start}byte {at}, line {line}, column {column}: {meaning}"
                )
            }
            NoFilm::Unread(_) => f.write_str("plot: standard input"),
            NoFilm::Fault => put_line(f, "a fault of the program, and no film"),
        }
    }
}

// What a refusal of the file means; the end is where no byte is any more.
fn meaning(number: u64, is_end: bool) -> &'static str {
    match number {
        limits::BAD_COMMAND if is_end => "the file ends without M02, or within a command",
        limits::BAD_COMMAND => "no command of this subset, or none that is allowed here",
        limits::NO_APERTURE => "an aperture that is not defined, or none chosen",
        limits::BAD_PATH => "more than 4,096 points in a stroke",
        limits::BAD_COORDINATE => "a point outside -262,144 to 262,144 units",
        limits::NO_ROOM => "more entries than the program keeps, which are 524,288",
        _ => "refused",
    }
}

// Tells why.
pub fn tell(told: Stderr, why: NoFilm) {
    match why {
        NoFilm::Unread(e) => tell::fail(told, b"plot: standard input", e),
        _ => tell::piecewise(told, why),
    }
}
