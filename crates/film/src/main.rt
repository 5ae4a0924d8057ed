// Writes the film of a panel legend on standard output, as a raw PBM file. The legend is Gerber text
// (legend): its strokes are read into lists, and of these the film is drawn band by band.
#![tactic(auto)]

ghost use Rattle.std.specs.Prelude.{◌≡◌, replicate, pos};
ghost use Rattle.film.specs.Legend.{legend};

use gather::Finished;
use limits::Verdict;

mod legend;

// How many strokes the legend has, and entries of all their paths.
const STROKES: usize = 77;

const STARTS: usize = 78;

const ENTRIES: usize = 626;

// Reads the text: the lists, which are as long as its strokes need, get them.
fn read(entries: &mut [i32], apertures: &mut [u64], starts: &mut [usize]) -> Finished
    requires entries_value { entries.old ≡ replicate 626 (pos 0) }
    requires apertures_value { apertures.old ≡ replicate 77 0 }
    requires starts_value { starts.old ≡ replicate 78 0 }
    ensures answer { result ≡ Finished.Done }
    ensures entries { entries.new ≡ legend.entries }
    ensures apertures { apertures.new ≡ legend.apertures }
    ensures starts { starts.new ≡ legend.starts }
{
    let settings = legend::SETTINGS;
    let text = legend::TEXT;
    let table = setting_list::table(&settings);
    let begun = gather::start(legend::UNIT);
    let gathering = gather::gather(begun, table, &text, entries, apertures, starts);
    gather::finish(gathering, starts)
}

// What cannot be, by the contract of `read`, is told all the same.
fn tell_refused(rt: HostRuntime, number: u64, place: u64) {
    let answer = checks::report(Verdict::Refused(number, place));
    tell::deliver(rt.stdout(), rt.stderr(), b"film", answer, b"");
}

fn main(rt: HostRuntime) {
    let settings = legend::SETTINGS;
    let mut entries = [0i32; ENTRIES];
    let mut apertures = [0u64; STROKES];
    let mut starts = [0usize; STARTS];
    let finished = read(&mut entries, &mut apertures, &mut starts);
    if let Finished::Refused(number, place) = finished {
        return tell_refused(rt, number, place);
    }
    output::write(
        rt.stdout(),
        rt.stderr(),
        b"film",
        &settings,
        &apertures,
        &starts,
        &entries,
        legend::COLUMNS,
        legend::ROWS,
        0,
        legend::ROWS,
    );
}
