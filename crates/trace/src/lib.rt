// Points gathered into strokes in a lent path, one after another: what the readers of strokes share.
#![tactic(auto)]

ghost use Rattle.std.specs.Prelude.{◌≡◌, ◌+◌, ◌-◌, ◌<◌, length};
ghost use Rattle.trace.specs.Trace.{nowhere, is_open, adds, is_longer, is_inside, is_fit, line_verdict, move_verdict, put2, lined, ended, moved};

use limits::Verdict;

// placed: (x, y) is the current point. The strokes handed out end before entry first; the entries from
// first to filled are the open stroke's, and none is open where there are none.
#[derive(Clone, Copy)]
pub struct Trace {
    pub placed: bool,
    pub x: i32,
    pub y: i32,
    pub first: usize,
    pub filled: usize,
}

// The stroke that was open: its first entry and how many entries it has, 0 where none was open.
#[derive(Clone, Copy)]
pub struct Ended {
    pub trace: Trace,
    pub first: usize,
    pub length: usize,
}

// No point yet, and no stroke.
pub fn nowhere() -> Trace
    ensures { result ≡ nowhere }
{
    Trace {
        placed: false,
        x: 0,
        y: 0,
        first: 0,
        filled: 0,
    }
}

// Whether a line to (x, y) can be added where a path has so much room: 2, 3 and 7, in this order.
pub fn line_check(t: Trace, x: i32, y: i32, room: usize, place: u64) -> Verdict
    ensures { result ≡ line_verdict t x y room place }
{
    if t.is_longer() {
        return Verdict::Refused(limits::BAD_PATH, place);
    }
    if !is_inside(x, y) {
        return Verdict::Refused(limits::BAD_COORDINATE, place);
    }
    if !t.is_fit(room) {
        return Verdict::Refused(limits::NO_ROOM, place);
    }
    Verdict::Passed
}

// Adds a line to (x, y): its point, and before it the current point where no stroke is open. Where they
// do not fit nothing is changed.
#[tactic(auto, unfolding(crate::specs::Trace::lined))]
pub fn line(t: Trace, x: i32, y: i32, path: &mut [i32]) -> Trace
    ensures { record { trace = result; entries = path.new } ≡ lined t x y path.old }
{
    if !t.is_fit(path.len()) {
        return t;
    }
    let at = t.filled;
    if t.is_open() {
        put(path, at, x, y);
        return Trace {
            placed: true,
            x,
            y,
            filled: at + 2,
            ..t
        };
    }
    put(path, at, t.x, t.y);
    put(path, at + 2, x, y);
    Trace {
        placed: true,
        x,
        y,
        first: at,
        filled: at + 4,
    }
}

// Ends the open stroke, if there is one.
pub fn end(t: Trace) -> Ended
    ensures { result ≡ ended t }
{
    Ended {
        trace: Trace {
            first: t.filled,
            ..t
        },
        first: t.first,
        length: t.open_length(),
    }
}

// Whether the current point can become (x, y): 3.
pub fn move_check(x: i32, y: i32, place: u64) -> Verdict
    ensures { result ≡ move_verdict x y place }
{
    if !is_inside(x, y) {
        return Verdict::Refused(limits::BAD_COORDINATE, place);
    }
    Verdict::Passed
}

// The current point becomes (x, y), and the stroke is ended.
pub fn move_to(t: Trace, x: i32, y: i32) -> Trace
    ensures { result ≡ moved t x y }
{
    Trace {
        placed: true,
        x,
        y,
        ..end(t).trace
    }
}

impl Trace {
    fn is_open(self) -> bool
        ensures { result ≡ is_open self }
    {
        self.first < self.filled
    }

    // How many entries the open stroke has, 0 where none is open.
    fn open_length(self) -> usize
        ensures { result ≡ self.filled - self.first }
    {
        self.filled.saturating_sub(self.first)
    }

    // How many entries a line adds.
    fn adds(self) -> usize
        ensures { result ≡ adds self }
    {
        if self.is_open() { 2 } else { 4 }
    }

    fn is_longer(self) -> bool
        ensures { result ≡ is_longer self }
    {
        limits::ENTRIES_MAX - 2 < self.open_length()
    }

    fn is_fit(self, room: usize) -> bool
        ensures { result ≡ is_fit self room }
    {
        let n = self.adds();
        n <= room && self.filled <= room - n
    }
}

fn is_inside(x: i32, y: i32) -> bool
    ensures { result ≡ is_inside x y }
{
    limits::in_range(x) && limits::in_range(y)
}

fn put(path: &mut [i32], at: usize, x: i32, y: i32)
    requires { at + 1 < length path.old }
    ensures { path.new ≡ put2 path.old at x y }
{
    path[at] = x;
    path[at + 1] = y;
}
