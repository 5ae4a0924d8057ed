// All strokes of a Gerber file, as it comes down the line in chunks of any length: they are kept in lent
// lists, to be drawn afterwards.
//
//     let mut gathering = gather::start(62500);
//     let next = gather::gather(gathering, table, chunk, path, apertures, starts);
//
// `next` goes into the next call, with the same table, path and lists. Behind the file's last chunk `finish`
// says Done or Refused. After Done stroke k has aperture apertures[k], and its entries are those of the path
// from starts[k] to starts[k + 1].
#![tactic(auto)]

ghost use Rattle.std.specs.Prelude.{ℕ, ◌≡◌, List, ℤ};
ghost use Rattle.gather.specs.Gather.{begun, notes_of, noted, together, gathered, is_complete, closed, finishing};

use aperture::Table;
use gerber::{Given, Reader};

// count: how many strokes have been noted. lost: a stroke found no place in the lists.
#[derive(Clone, Copy)]
pub struct Gathering {
    pub reader: Reader,
    pub count: usize,
    pub lost: bool,
}

// Refused: the number, and the byte's place in the file.
#[derive(Clone, Copy)]
pub enum Finished {
    Done,
    Refused(u64, u64),
}

// Before the first byte of a file, a unit being so many nanometres.
pub fn start(unit: u64) -> Gathering
    ensures { result ≡ begun unit }
{
    Gathering {
        reader: gerber::start(unit),
        count: 0,
        lost: false,
    }
}

// Reads a chunk, behind each stroke its rest again, up to its end or to a refusal, which the reader keeps. A
// reader that holds a refusal repeats it, and nothing changes.
pub fn gather(
    g: Gathering,
    table: Table,
    chunk: &[u8],
    path: &mut [i32],
    apertures: &mut [u64],
    starts: &mut [usize],
) -> Gathering
    ensures { record { gathering = result; path = path.new; apertures = apertures.new; starts = starts.new }
        ≡ gathered g table chunk.now path.old apertures.old starts.old }
{
    let mut gathering = g;
    let mut rest = chunk;
    while !rest.is_empty() {
        let fed = gerber::feed(gathering.reader, table, rest, path);
        let after = Gathering {
            reader: fed.reader,
            ..gathering
        };
        let Given::Stroke(aperture, first, _) = fed.given else {
            return after;
        };
        gathering = note(after, aperture, first, apertures, starts);
        rest = &rest[fed.used..];
    }
    gathering
}

// Puts a stroke's aperture and its first entry behind those noted before, where both lists have a place. The
// path and the stroke's length are not needed for that: the contract holds for every path p and length n.
#[tactic(auto, unfolding(crate::specs::Gather::noted))]
fn note(
    g: Gathering,
    aperture: u64,
    first: usize,
    apertures: &mut [u64],
    starts: &mut [usize],
) -> Gathering
    ensures { (p : List ℤ) (n : ℕ) → record { gathering = result; path = p; apertures = apertures.new; starts = starts.new }
        ≡ together (record { reader = g.reader; path = p }) (noted (notes_of g apertures.old starts.old) (record { aperture = aperture; first = first; length = n })) }
{
    let k = g.count;
    if apertures.len() <= k || starts.len() <= k {
        return Gathering { lost: true, ..g };
    }
    apertures[k] = aperture;
    starts[k] = first;
    Gathering { count: k + 1, ..g }
}

// The file has ended: all is well where the reader says so and every stroke is noted, and then the end of the
// last stroke stands behind the starts. Where it is refused starts is unchanged.
#[tactic(auto, unfolding(crate::specs::Gather::finishing))]
pub fn finish(g: Gathering, starts: &mut [usize]) -> Finished
    ensures { record { answer = result; starts = starts.new } ≡ finishing g starts.old }
{
    match gerber::finish(g.reader).given {
        Given::Refused(number, place) => Finished::Refused(number, place),
        _ => close(g, starts),
    }
}

// What the reader has nothing against: the lists may have been too short.
fn close(g: Gathering, starts: &mut [usize]) -> Finished
    ensures { record { answer = result; starts = starts.new } ≡ closed g starts.old }
{
    if !is_complete(g, starts.len()) {
        return Finished::Refused(limits::NO_ROOM, g.reader.scanner.at);
    }
    starts[g.count] = g.reader.trace.first;
    Finished::Done
}

// Whether every stroke is noted, and so many starts have a place for the end of the last.
fn is_complete(g: Gathering, starts: usize) -> bool
    ensures { result ≡ is_complete g starts }
{
    !g.lost && g.count < starts
}
