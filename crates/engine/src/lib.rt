// A second engine, for one segment: it drives rows one after another, upwards.
//
// It carries the two flanks of the segment's sweep from row to row (crate flanks), and looks at no
// side of it. It calls nothing of what answers a row call: that both give the same is proved, and
// holds no more than what each of them does.
#![tactic(auto)]

ghost use Rattle.std.specs.Prelude.{◌≡◌, ◌≤◌, ◌<◌, length};
ghost use Rattle.limits.specs.declared.Verdict.TheVariants.{Passed};
ghost use Rattle.checks.specs.Answer.{answer_of, given};
ghost use Rattle.row.specs.Answer.{runs_offer};
ghost use Rattle.engine.specs.Engine.{engine_of, stopped, started, cut_runs, step_result, next, stepped};

use aperture::{Looked, Table};
use checks::Answer;
use flanks::{Cut, Flanks};
use limits::Verdict;
use pen::Pen;

// The pen of the aperture as it was at the start, the flanks in the row that comes next, the
// raster's size, and that row.
#[derive(Clone, Copy)]
pub struct Engine {
    pub pen: Pen,
    pub flanks: Flanks,
    pub columns: u16,
    pub rows: u16,
    pub row: u16,
}

impl Engine {
    // One row up.
    fn next(self) -> Engine
        requires { self.row < self.rows }
        ensures { result ≡ next self }
    {
        let row = self.row + 1;
        let flanks = flanks::rise(self.flanks, &self.pen.x, &self.pen.y, self.pen.count, row);
        Engine {
            flanks,
            row,
            ..self
        }
    }
}

// What starting answers. On a refusal the engine has no rows.
#[derive(Drop)]
pub struct Started {
    pub answer: Answer,
    pub engine: Engine,
}

// What a step answers, and the engine after it: one row up, or, on a refusal, as it was.
#[derive(Drop)]
pub struct Stepped {
    pub answer: Answer,
    pub engine: Engine,
}

fn stopped() -> Engine
    ensures { result ≡ stopped }
{
    Engine {
        pen: Pen {
            count: 0,
            x: [0; limits::PEN_MAX],
            y: [0; limits::PEN_MAX],
        },
        flanks: flanks::nowhere(),
        columns: 0,
        rows: 0,
        row: 0,
    }
}

fn refused(v: Verdict) -> Started
    ensures { result ≡ record { answer = answer_of v; engine = stopped } }
{
    Started {
        answer: checks::report(v),
        engine: stopped(),
    }
}

// The segment runs from the path's first point to its last, which is the same where it has one.
fn engine_of(pen: Pen, path: &[i32], columns: u16, rows: u16, row: u16) -> Engine
    requires { 2 ≤ length path.now }
    ensures { result ≡ engine_of pen path.now columns rows row }
{
    let last = path.len() - 2;
    let begun = flanks::begin(
        &pen.x,
        &pen.y,
        pen.count,
        path[0],
        path[1],
        path[last],
        path[last + 1],
    );
    let flanks = flanks::rise(begun, &pen.x, &pen.y, pen.count, row);
    Engine {
        pen,
        flanks,
        columns,
        rows,
        row,
    }
}

// An engine for the aperture's pen and the path's one segment, that stands in the given row. The
// checks are a row call's but for 7, in its order: 6, 2, 4, 5, 3; a path of other than one or two
// points is refused with 2.
pub fn start(table: Table, number: u64, path: &[i32], columns: u64, rows: u64, row: u64) -> Started
    ensures { result ≡ started table number path.now columns rows row }
{
    let Looked::At(i) = aperture::look_up(table, number) else {
        return refused(Verdict::Refused(limits::NO_APERTURE, 0));
    };
    let segment = checks::segment_check(path);
    let Verdict::Passed = segment else {
        return refused(segment);
    };
    let checked = checks::check(path, columns, rows, row);
    let Verdict::Passed = checked else {
        return refused(checked);
    };
    let place = table.places[i];
    Started {
        answer: checks::done(0),
        engine: engine_of(place.pen, path, columns as u16, rows as u16, row as u16),
    }
}

// The columns of a cut as the one run that they are. No column needs no room.
fn write_cut(runs: &mut [u16], c: Cut) -> Answer
    ensures { record { answer = result; list = runs.new } ≡ given Passed (runs_offer (cut_runs c) runs.old) }
{
    if c.end <= c.first {
        return checks::done(0);
    }
    let room = checks::room_check(1, runs.len() / 2);
    let Verdict::Passed = room else {
        return checks::report(room);
    };
    runs[0] = c.first;
    runs[1] = c.end - 1;
    checks::done(1)
}

// The runs of the row in which the engine stands, as left and right columns alternating: one, or
// none. Past the last row it is refused with 5, and for lack of room with 7.
#[tactic(auto, using(crate::proofs::StepCases::step_past, crate::proofs::StepCases::step_written))]
pub fn step(e: Engine, runs: &mut [u16]) -> Stepped
    ensures answer { record { answer = result.answer; list = runs.new } ≡ step_result e runs.old }
    ensures engine { result.engine ≡ stepped e runs.old }
{
    let checked = checks::row_check(u64::from(e.rows), u64::from(e.row));
    let Verdict::Passed = checked else {
        return Stepped {
            answer: checks::report(checked),
            engine: e,
        };
    };
    let answer = write_cut(runs, flanks::between(e.flanks, e.row, e.columns));
    if answer.refusal != limits::DONE {
        return Stepped { answer, engine: e };
    }
    Stepped {
        answer,
        engine: e.next(),
    }
}
