// The row answer as records: the runs of one row, each a left and a right column, in a slice that
// the caller lends.
//
// A layer over the plain answer: the runs are drawn into a list of numbers, left and right
// alternating, and written out of it as records. Nothing is checked or drawn here.
#![tactic(auto)]

ghost use Rattle.std.specs.Prelude.{◌≡◌, ◌*◌, ◌≤◌, length, take};
ghost use Rattle.limits.specs.Sizes.{entries_max};
ghost use Rattle.row.specs.Calls.{row_call};
ghost use Rattle.records.specs.Records.{entries, written, records_call};

use aperture::Table;
use checks::Answer;

#[repr(C)]
#[derive(Drop)]
pub struct Run {
    pub left: u16,
    pub right: u16,
}

// A row has no more runs than its path has segments, and so at most half as many as a path can have
// entries.
const RUNS_MAX: usize = limits::ENTRIES_MAX / 2;

// How many numbers the runs of a row need, for a list of so many records.
fn entries(room: usize) -> usize
    ensures { result ≡ entries room }
{
    if room <= RUNS_MAX {
        2 * room
    } else {
        limits::ENTRIES_MAX
    }
}

// The plain answer for a list of so many records. The list of numbers is the caller's, so that it is
// made once.
fn flat_runs(
    table: Table,
    number: u64,
    path: &[i32],
    columns: u64,
    rows: u64,
    row: u64,
    room: usize,
    list: &mut [u16],
) -> Answer
    requires { length list.old ≡ entries_max }
    ensures { record { answer = result; list = take (entries room) list.new }
        ≡ row_call table number path.now columns rows row (take (entries room) list.old) }
{
    let n = entries(room);
    row::row_runs(table, number, path, columns, rows, row, &mut list[..n])
}

// The first records, of the numbers of a plain list; the records after them stay.
fn write(plain: &[u16], count: usize, out: &mut [Run])
    requires numbers { 2 * count ≤ length plain.now }
    requires records { count ≤ length out.old }
    ensures { out.new ≡ written count plain.now out.old }
{
    for i in 0..count {
        out[i] = Run {
            left: plain[2 * i],
            right: plain[2 * i + 1],
        };
    }
}

// The black runs of one row for an aperture, as records. The checks are those of the plain answer,
// and a refusal, which reports 0 runs, leaves all records as they were.
pub fn row_records(
    table: Table,
    number: u64,
    path: &[i32],
    columns: u64,
    rows: u64,
    row: u64,
    out: &mut [Run],
) -> Answer
    ensures { record { answer = result; list = out.new } ≡ records_call table number path.now columns rows row out.old }
{
    let mut list: [u16; limits::ENTRIES_MAX] = [0; limits::ENTRIES_MAX];
    let answer = flat_runs(
        table,
        number,
        path,
        columns,
        rows,
        row,
        out.len(),
        &mut list,
    );
    write(&list, answer.count as usize, out);
    answer
}
