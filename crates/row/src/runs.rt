// The list of runs: pairs of a left and a right column, one after the other.
//
// One pass over the bytes between the bounds of the cuts, from the left: no other column is black. A
// run starts at a black column that follows no black one. At any time the list holds the runs of the
// columns passed: a black column starts a new run or moves the right end of the last one. Most bytes
// are clear, and passed at once. Counting is the same pass with WRITES false, which leaves the list:
// the caller learns whether there is room before anything is written, and the pass that writes
// compares no place with the list's end.
ghost use Rattle.std.specs.Prelude.{◌≡◌, true, false, not, cond, ◌&&◌, suc, ◌+◌, ◌-◌, ◌*◌, ◌<◌, ◌≤◌, length, set};
ghost use Rattle.limits.specs.Sizes.{raster_max};
ghost use Rattle.bits.specs.Bits.{bit_at};
ghost use Rattle.stroke.specs.Runs.{runs_of};
ghost use Rattle.row.specs.Pass.{PassedTo, Listed};
ghost use Rattle.row.specs.Together.{Inside};
ghost use Rattle.cuts.specs.Cuts.{Bounded};

// What the pass knows after a column: whether the column is black, and how many runs there are so
// far.
#[derive(Clone, Copy)]
pub struct Pass {
    pub black: bool,
    pub count: usize,
}

impl Pass {
    // Column i passed. The sum has no branch, since a wide row spends much of its time here.
    fn next(self, bytes: &[u8], i: usize) -> Pass
        requires { self.count ≤ raster_max }
        ensures black { result.black ≡ bit_at bytes.now i }
        ensures count { result.count ≡ cond (result.black && not self.black) (suc self.count) self.count }
    {
        let black = bits::is_black(bytes, i);
        Pass {
            black,
            count: self.count + usize::from(black && !self.black),
        }
    }
}

// The run after the first n.
pub fn write_run(runs: &mut [u16], n: usize, left: usize, right: usize)
    requires place { 2 * n + 1 < length runs.old }
    requires inside { Inside left right }
    ensures { runs.new ≡ set (set runs.old (2 * n) left) (2 * n + 1) right }
{
    runs[2 * n] = left as u16;
    runs[2 * n + 1] = right as u16;
}

// Column i, black or not, after n runs: it lengthens the last run where the column before it is
// black, and otherwise starts a run. With WRITES false nothing is written.
fn write_column<const WRITES: bool>(runs: &mut [u16], n: usize, i: usize, before: bool, black: bool)
    requires inside { i < raster_max }
    requires some { before ≡ true → 1 ≤ n }
    requires room { WRITES ≡ true → 2 * cond (black && not before) (suc n) n ≤ length runs.old }
    ensures { WRITES ≡ true
        → runs.new
        ≡ cond black (cond before (set runs.old (2 * n - 1) i) (set (set runs.old (2 * n) i) (2 * n + 1) i)) runs.old }
{
    if WRITES && black {
        if before {
            runs[2 * n - 1] = i as u16;
        } else {
            write_run(runs, n, i, i);
        }
    }
}

// The columns from `from` on and before `to` passed, and their runs written with WRITES.
fn pass_columns<const WRITES: bool>(
    bytes: &[u8],
    from: usize,
    to: usize,
    p: Pass,
    runs: &mut [u16],
) -> Pass
    requires in_raster { to ≤ raster_max }
    requires ordered { from ≤ to }
    requires passed { PassedTo (bit_at bytes.now) from p }
    requires held { WRITES ≡ true → Listed (bit_at bytes.now) from runs.old runs.old }
    requires room { WRITES ≡ true → 2 * length (runs_of (bit_at bytes.now) to) ≤ length runs.old }
    ensures passed { PassedTo (bit_at bytes.now) to result }
    ensures written { WRITES ≡ true → Listed (bit_at bytes.now) to runs.old runs.new }
{
    let mut q = p;
    for i in from..to {
        let r = q.next(bytes, i);
        write_column::<WRITES>(runs, q.count, i, q.black, r.black);
        q = r;
    }
    q
}

// The columns of byte k passed, and their runs written with WRITES.
fn pass_byte<const WRITES: bool>(bytes: &[u8], k: usize, p: Pass, runs: &mut [u16]) -> Pass
    requires in_bytes { k < length bytes.now }
    requires in_raster { 8 * k + 8 ≤ raster_max }
    requires passed { PassedTo (bit_at bytes.now) (8 * k) p }
    requires held { WRITES ≡ true → Listed (bit_at bytes.now) (8 * k) runs.old runs.old }
    requires room { WRITES ≡ true → 2 * length (runs_of (bit_at bytes.now) (8 * k + 8)) ≤ length runs.old }
    ensures passed { PassedTo (bit_at bytes.now) (8 * k + 8) result }
    ensures written { WRITES ≡ true → Listed (bit_at bytes.now) (8 * k + 8) runs.old runs.new }
{
    if bytes[k] == 0 {
        return Pass { black: false, ..p };
    }
    pass_columns::<WRITES>(bytes, 8 * k, 8 * k + 8, p, runs)
}

// How many runs there are. With WRITES they are written to the list, which has room for all of them.
pub fn list_runs<const WRITES: bool>(
    bytes: &[u8],
    first: usize,
    end: usize,
    runs: &mut [u16],
) -> usize
    requires in_bytes { end ≤ 8 * length bytes.now }
    requires in_raster { end ≤ raster_max }
    requires bounded { Bounded (bit_at bytes.now) first end }
    requires room { WRITES ≡ true → 2 * length (runs_of (bit_at bytes.now) end) ≤ length runs.old }
    ensures count { result ≡ length (runs_of (bit_at bytes.now) end) }
    ensures written { WRITES ≡ true → Listed (bit_at bytes.now) end runs.old runs.new }
{
    let mut p = Pass {
        black: false,
        count: 0,
    };
    for k in first / 8..bits::length_of(end) {
        p = pass_byte::<WRITES>(bytes, k, p, runs);
    }
    p.count
}
