// Why the tool ends before the file's end, or has no last line.
use std::env::FillError;
use std::io::Stderr;
use std::{fmt, io};

// A refusal, which is an answer and nothing to tell. Of the words: their form, numbers that are none, lists that
// are none, or too long a word. A read or a write that failed. And answers that no reader gives.
#[derive(Drop)]
pub enum Stop {
    Refused,
    Form,
    Unit,
    Room,
    LargeRoom,
    Apertures(FillError),
    AperturesList,
    AperturesNumber,
    Chunks(FillError),
    ChunksList,
    Unread(io::Error),
    Unwritten(io::Error),
    NotRepeated,
    LongStroke,
    OutsideStroke,
    NoByte,
    TooManyBytes,
    NotUsedUp,
    FedDone,
    FinishedMore,
    FinishedStroke,
}

// All but the system's messages.
impl fmt::Display for Stop {
    fn fmt<W: fmt::Write>(&self, f: &mut fmt::Formatter<W>) -> fmt::Result {
        f.write_str(match self {
            Stop::Refused => "refused",
            Stop::Form => "usage: try_gerber N ROOM APERTURES CHUNKS <FILE",
            Stop::Unit => "N is no number below 2^64",
            Stop::Room => "ROOM is no number below 2^64",
            Stop::LargeRoom => "ROOM is at most 65536",
            Stop::Apertures(_) => "APERTURES",
            Stop::AperturesList => "APERTURES is no list of numbers with commas between",
            Stop::AperturesNumber => "APERTURES has a number outside 10 to 41, or one twice",
            Stop::Chunks(_) => "CHUNKS",
            Stop::ChunksList => "CHUNKS is no list of numbers with commas between",
            Stop::Unread(_) => "standard input",
            Stop::Unwritten(_) => "standard output",
            Stop::NotRepeated => "a refusal is not repeated",
            Stop::LongStroke => "a stroke is longer than the path",
            Stop::OutsideStroke => "a stroke stands outside the path",
            Stop::NoByte => "a stroke uses no byte",
            Stop::TooManyBytes => "a stroke uses more bytes than there are",
            Stop::NotUsedUp => "a chunk is not used up",
            Stop::FedDone => "feed says that the file is done",
            Stop::FinishedMore => "finish says that there is more",
            Stop::FinishedStroke => "finish gives a stroke",
        })
    }
}

// Tells why the tool ends here.
pub fn tell(told: Stderr, why: Stop) {
    match why {
        Stop::Refused => (),
        Stop::Apertures(e) => tell::fail(told, b"try_gerber: APERTURES", inputs::word_error(e)),
        Stop::Chunks(e) => tell::fail(told, b"try_gerber: CHUNKS", inputs::word_error(e)),
        Stop::Unread(e) => tell::fail(told, b"try_gerber: standard input", e),
        Stop::Unwritten(e) => tell::fail(told, b"try_gerber: standard output", e),
        _ => {
            tell::say(told, b"try_gerber: ");
            let _ = told.print(&why);
            tell::say(told, b"\n");
        }
    }
}
