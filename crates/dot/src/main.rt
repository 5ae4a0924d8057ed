// Document 01's whole PBM file of a dot, on standard output: w=16, dot at (32,16), 5 columns, 3
// rows.
#![tactic(auto)]

ghost use Rattle.std.specs.Prelude.{◌≡◌};
ghost use Rattle.limits.specs.declared.Verdict.TheVariants.{Passed};
ghost use Rattle.checks.specs.Answer.{given};
ghost use Rattle.pbm.specs.Pbm.{file_offer};
ghost use Rattle.drawing.specs.Cases.{dot_header, dot_rows};

use checks::Answer;

// Puts the file's header at the start of out.
fn header(out: &mut [u8]) -> Answer
    ensures { record { answer = result; list = out.new } ≡ given Passed (file_offer dot_header out.old) }
{
    pbm::put_header(out, 5, 3)
}

// Puts its rows, which are one band.
fn dot(out: &mut [u8]) -> Answer
    ensures { record { answer = result; list = out.new } ≡ given Passed (file_offer dot_rows out.old) }
{
    let settings = [16, 1, 1];
    let apertures = [10];
    let starts = [0, 2];
    let entries = [32, 16];
    film_band::put_band(&settings, &apertures, &starts, &entries, 5, 3, 0, 3, out)
}

fn main(rt: HostRuntime) {
    let mut head = [0u8; pbm::HEADER_MAX];
    let answer = header(&mut head);
    if tell::deliver(rt.stdout(), rt.stderr(), b"dot", answer, &head) {
        let mut rows = [0u8; 3];
        let answer = dot(&mut rows);
        tell::deliver(rt.stdout(), rt.stderr(), b"dot", answer, &rows);
    }
}
