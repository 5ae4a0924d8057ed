// The Gerber file on standard input, read in chunks to its end or to a refusal, its strokes gathered.
ghost use Rattle.std.specs.Prelude.{◌≡◌};
ghost use Rattle.gather.specs.Gather.{gathered};
ghost use Rattle.marks.specs.Marks.{advanced};

use crate::refusal::NoFilm;
use aperture::Table;
use gather::{Finished, Gathering};
use marks::Marks;
use std::io::Stdin;

// How many bytes of the file are read at a time, at most.
const CHUNK: usize = 65536;

// What has been read.
#[derive(Clone, Copy)]
struct Intake {
    gathering: Gathering,
    marks: Marks,
}

// Gathers the strokes of a chunk.
fn take(
    before: Intake,
    table: Table,
    chunk: &[u8],
    path: &mut [i32],
    apertures: &mut [u64],
    starts: &mut [usize],
) -> Intake
    ensures gathered { record { gathering = result.gathering; path = path.new; apertures = apertures.new; starts = starts.new }
        ≡ gathered before.gathering table chunk.now path.old apertures.old starts.old }
    ensures marked { result.marks ≡ advanced before.marks chunk.now result.gathering.reader.scanner.start }
{
    let gathering = gather::gather(before.gathering, table, chunk, path, apertures, starts);
    let start = gathering.reader.scanner.start;
    Intake {
        gathering,
        marks: marks::advance(before.marks, chunk, start),
    }
}

// Reads on, up to the file's end or a refusal: each chunk but the last is as long as the buffer. There are
// fewer chunks than the loop has turns.
fn read_all(
    input: Stdin,
    start: Intake,
    table: Table,
    path: &mut [i32],
    apertures: &mut [u64],
    starts: &mut [usize],
) -> Result<Intake, NoFilm> {
    let mut buf = [0u8; CHUNK];
    let mut now = start;
    for _ in 0..u64::MAX {
        let count = inputs::fill(input, &mut buf)?;
        now = take(now, table, &buf[..count], path, apertures, starts);
        if count < CHUNK || now.gathering.reader.refusal != limits::DONE {
            return Ok(now);
        }
    }
    Err(NoFilm::Fault)
}

// Reads all of standard input, a unit being so many nanometres, and answers how many strokes are in the lists.
pub fn read(
    input: Stdin,
    unit: u64,
    settings: &[u64],
    path: &mut [i32],
    apertures: &mut [u64],
    starts: &mut [usize],
) -> Result<usize, NoFilm> {
    let table = setting_list::table(settings);
    let start = Intake {
        gathering: gather::start(unit),
        marks: marks::begin(),
    };
    let Intake { gathering, marks } = read_all(input, start, table, path, apertures, starts)?;
    match gather::finish(gathering, starts) {
        Finished::Done => Ok(gathering.count),
        Finished::Refused(number, place) => Err(NoFilm::File(
            number,
            marks::mark_of(marks, place),
            marks::is_end(marks, place),
        )),
    }
}
