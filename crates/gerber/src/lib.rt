// The strokes of a Gerber file (document 02, W4), as it comes down the line in chunks of any length.
//
//     let mut reader = gerber::start(62500);
//     let fed = gerber::feed(reader, table, chunk, path);
//
// `fed.given` says what came of the chunk: More (all of it is used), a Stroke in the path, whose bytes
// behind `fed.used` are to be lent again, or Refused. `fed.reader` goes into the next call, and the same
// path. At the end of the file `finish` says Done or Refused.
#![tactic(auto)]

ghost use Rattle.std.specs.Prelude.{◌≡◌, not, eqb};
ghost use Rattle.gerber.specs.Reader.{started, repeated, feeds, finished, finished_on};

use aperture::Table;
use scan::Scanner;
use trace::Trace;

mod chunk;
mod command;

// What has been read. unit: how many nanometres a unit is. refusal and place: of the refusal, once there is
// one; 0 before. aperture: the one chosen, 0 before the first choice.
#[derive(Clone, Copy)]
pub struct Reader {
    pub unit: u64,
    pub refusal: u64,
    pub place: u64,
    pub scanner: Scanner,
    pub aperture: u64,
    pub trace: Trace,
}

// Stroke: its aperture, its first entry in the path, and how many entries it has. Refused: the number, and
// the byte's place in the file.
#[derive(Clone, Copy)]
pub enum Given {
    More,
    Stroke(u64, usize, usize),
    Done,
    Refused(u64, u64),
}

// What a call gives. used: how many bytes of its chunk; 0 for a refusal.
#[derive(Clone, Copy)]
pub struct Fed {
    pub reader: Reader,
    pub given: Given,
    pub used: usize,
}

// What a command gives.
#[derive(Clone, Copy)]
pub struct Obeyed {
    pub reader: Reader,
    pub given: Given,
}

// Before the first byte of a file, a unit being so many nanometres.
#[tactic(auto, unfolding(crate::specs::Reader::started))]
pub fn start(unit: u64) -> Reader
    ensures { result ≡ started unit }
{
    let fresh = Reader {
        unit,
        refusal: limits::DONE,
        place: 0,
        scanner: scan::begin(),
        aperture: 0,
        trace: trace::nowhere(),
    };
    if units::is_unit(unit) {
        return fresh;
    }
    command::latched(fresh, limits::BAD_SETTING, 0)
}

// Reads a chunk, up to the end of the first stroke or to a refusal. After a refusal nothing is read.
#[tactic(auto, unfolding(crate::specs::Reader::feeds))]
pub fn feed(r: Reader, t: Table, chunk: &[u8], path: &mut [i32]) -> Fed
    ensures { record { fed = result; entries = path.new } ≡ feeds r t chunk.now path.old }
{
    if is_refused(r) {
        return repeated(r);
    }
    chunk::feed_on(r, t, chunk, path)
}

// The file has ended: all is well where M02 has been read and no command begun after it.
#[tactic(auto, unfolding(crate::specs::Reader::finished))]
pub fn finish(r: Reader) -> Fed
    ensures { result ≡ finished r }
{
    if is_refused(r) {
        return repeated(r);
    }
    finish_on(r)
}

fn is_refused(r: Reader) -> bool
    ensures { result ≡ not (eqb r.refusal 0) }
{
    r.refusal != limits::DONE
}

fn repeated(r: Reader) -> Fed
    ensures { result ≡ repeated r }
{
    Fed {
        reader: r,
        given: Given::Refused(r.refusal, r.place),
        used: 0,
    }
}

fn finish_on(r: Reader) -> Fed
    ensures { result ≡ finished_on r }
{
    if scan::is_ended(r.scanner.mode) {
        return Fed {
            reader: r,
            given: Given::Done,
            used: 0,
        };
    }
    let at = r.scanner.at;
    Fed {
        reader: command::latched(r, limits::BAD_COMMAND, at),
        given: Given::Refused(limits::BAD_COMMAND, at),
        used: 0,
    }
}
