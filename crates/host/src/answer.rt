// What a row call answers for a setting that is taken and a path of bytes.
ghost use Rattle.std.specs.Prelude.{◌≡◌, ◌*◌, ◌≤◌, length, []};
ghost use Rattle.limits.specs.declared.Verdict.TheVariants.{Passed};
ghost use Rattle.limits.specs.Sizes.{entries_max};
ghost use Rattle.wire.specs.Read.{entries_of};
ghost use Rattle.setting.specs.Setting.{Taken};
ghost use Rattle.outcome.specs.Fit.{Fit};
ghost use Rattle.host.specs.Call.{written, runs_with, packed_with, call_with, dot, entries_verdict, entries_call, bytes_call};
ghost use Rattle.plane.specs.Point.{corners};

use crate::miss::misses;
use checks::Answer;
use limits::{ENTRIES_MAX, Verdict};
use setting::Setting;

// How many entries a short path has at most, and how many bytes.
const SHORT: usize = 64;

const SHORT_BYTES: usize = 4 * SHORT;

// What is asked for: a row of a raster for a setting, as runs or packed.
#[derive(Clone, Copy)]
pub struct Call {
    pub setting: Setting,
    pub columns: u64,
    pub rows: u64,
    pub row: u64,
    pub packed: bool,
}

// The runs of a list go to the host's bytes, if it has room for them. A refused row has none.
fn write(a: Answer, list: &[u16], runs: &mut [u8]) -> u64
    requires { Fit a }
    ensures { record { answer = result; bytes = runs.new } ≡ written a list.now runs.old }
{
    let count = a.count as usize;
    let room = checks::room_check(count, runs.len() / 4);
    let Verdict::Passed = room else {
        return outcome::refused(room);
    };
    wire::encode(list, 2 * count, runs);
    outcome::code(a)
}

// The runs go into the list, and from there to the host's bytes. There are no more runs than
// segments, so that a list with as many numbers as the path has entries has room for them, and what
// is left to compare is the host's own room.
fn listed_runs<'a>(
    call: Call,
    xs: &'a [i8],
    ys: &'a [i8],
    count: usize,
    path: &[i32],
    list: &mut [u16],
    runs: &mut [u8],
) -> u64
    requires { entries_verdict call path.now ≡ Passed → length path.now ≤ length list.old }
    ensures { record { answer = result; bytes = runs.new } ≡ runs_with (corners count xs.now ys.now) call (entries_verdict call path.now) path.now runs.old }
{
    let a = row::runs_of(xs, ys, count, path, call.columns, call.rows, call.row, list);
    write(a, list, runs)
}

// The runs go through a list of N numbers.
fn runs_in<'a, const N: usize>(
    call: Call,
    xs: &'a [i8],
    ys: &'a [i8],
    count: usize,
    path: &[i32],
    runs: &mut [u8],
) -> u64
    requires few { N ≤ entries_max }
    requires room { entries_verdict call path.now ≡ Passed → length path.now ≤ N }
    ensures { record { answer = result; bytes = runs.new } ≡ runs_with (corners count xs.now ys.now) call (entries_verdict call path.now) path.now runs.old }
{
    let mut list = [0u16; N];
    listed_runs(call, xs, ys, count, path, &mut list, runs)
}

// A short path has a short list: to clear one for the longest would cost more than most rows do.
fn entries_runs<'a>(
    call: Call,
    xs: &'a [i8],
    ys: &'a [i8],
    count: usize,
    path: &[i32],
    runs: &mut [u8],
) -> u64
    ensures { record { answer = result; bytes = runs.new } ≡ runs_with (corners count xs.now ys.now) call (entries_verdict call path.now) path.now runs.old }
{
    if path.len() <= SHORT {
        return runs_in::<SHORT>(call, xs, ys, count, path, runs);
    }
    runs_in::<ENTRIES_MAX>(call, xs, ys, count, path, runs)
}

fn entries_packed<'a>(
    call: Call,
    xs: &'a [i8],
    ys: &'a [i8],
    count: usize,
    path: &[i32],
    bytes: &mut [u8],
) -> u64
    ensures { record { answer = result; bytes = bytes.new } ≡ packed_with (corners count xs.now ys.now) call (entries_verdict call path.now) path.now bytes.old }
{
    let a = packed::packed_of(
        xs,
        ys,
        count,
        path,
        call.columns,
        call.rows,
        call.row,
        bytes,
    );
    outcome::code(a)
}

fn of_corners<'a>(
    call: Call,
    xs: &'a [i8],
    ys: &'a [i8],
    count: usize,
    path: &[i32],
    bytes: &mut [u8],
) -> u64
    ensures { record { answer = result; bytes = bytes.new }
        ≡ call_with (corners count xs.now ys.now) call (entries_verdict call path.now) path.now bytes.old }
{
    if call.packed {
        return entries_packed(call, xs, ys, count, path, bytes);
    }
    entries_runs(call, xs, ys, count, path, bytes)
}

// A row with nothing black, whatever the path: a pen without corners draws none, of a dot as of any
// other path.
fn missed(call: Call, bytes: &mut [u8]) -> u64
    requires { entries_verdict call dot ≡ Passed }
    ensures { record { answer = result; bytes = bytes.new } ≡ call_with [] call Passed dot bytes.old }
{
    let none = [0i8; 1];
    let dot = [0i32, 0];
    of_corners(call, &none, &none, 0, &dot, bytes)
}

// The checks come first, and the pen is built only where they pass and the path reaches the row. It is
// built here, and not below, so that its work and the list of runs do not stand on the stack at once.
fn of_entries(call: Call, path: &[i32], bytes: &mut [u8]) -> u64
    requires { Taken call.setting }
    ensures { record { answer = result; bytes = bytes.new } ≡ entries_call call path.now bytes.old }
{
    let checked = checks::check(path, call.columns, call.rows, call.row);
    let Verdict::Passed = checked else {
        return outcome::refused(checked);
    };
    if misses(call, path) {
        return missed(call, bytes);
    }
    let s = call.setting;
    let built = pen::build(s.w, s.p, s.q);
    of_corners(
        call,
        &built.pen.x,
        &built.pen.y,
        built.pen.count,
        path,
        bytes,
    )
}

// The path's coordinates go into an array of N.
fn decoded<const N: usize>(call: Call, path: &[u8], bytes: &mut [u8]) -> u64
    requires taken { Taken call.setting }
    requires few { N ≤ entries_max }
    requires short { length path.now ≤ 4 * N }
    ensures { record { answer = result; bytes = bytes.new } ≡ entries_call call (entries_of path.now) bytes.old }
{
    let mut entries = [0i32; N];
    wire::decode(path, &mut entries);
    let n = path.len() / 4;
    of_entries(call, &entries[..n], bytes)
}

// The length of the bytes is checked before they are read. Most paths are short, and to clear an array
// for the longest would cost more than most rows do.
pub fn of_bytes(call: Call, path: &[u8], bytes: &mut [u8]) -> u64
    requires { Taken call.setting }
    ensures { record { answer = result; bytes = bytes.new } ≡ bytes_call call path.now bytes.old }
{
    let of_bytes = outcome::bytes_check(path.len());
    let Verdict::Passed = of_bytes else {
        return outcome::refused(of_bytes);
    };
    if path.len() <= SHORT_BYTES {
        return decoded::<SHORT>(call, path, bytes);
    }
    decoded::<ENTRIES_MAX>(call, path, bytes)
}
