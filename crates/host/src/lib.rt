// The row answer and the packed row for a host program in C: numbers and byte slices only.
//
// The way of the data: the path's coordinates from bytes (wire), the checks, the setting's pen where
// the path reaches the row (miss), the row's answer (row, packed), and the answer in one number
// (outcome); answer leads through these.
#![tactic(auto)]

ghost use Rattle.std.specs.Prelude.{◌≡◌};
ghost use Rattle.host.specs.Host.{host_row, host_packed_row};

mod answer;
mod miss;

use crate::answer::Call;
use limits::Verdict;
use setting::Checked;

// The black runs of a row, four bytes each: left and right column, lowest byte first.
pub fn zimarolfo_row(
    w: u64,
    p: u64,
    q: u64,
    path: &[u8],
    columns: u64,
    rows: u64,
    row: u64,
    runs: &mut [u8],
) -> u64
    ensures { record { answer = result; bytes = runs.new } ≡ host_row (record { w = w; p = p; q = q }) path.now columns rows row runs.old }
{
    let Checked::Taken(s) = setting::check(w, p, q) else {
        return outcome::refused(Verdict::Refused(limits::BAD_SETTING, 0));
    };
    let call = Call {
        setting: s,
        columns,
        rows,
        row,
        packed: false,
    };
    answer::of_bytes(call, path, runs)
}

// The same row as packed bits.
pub fn zimarolfo_packed_row(
    w: u64,
    p: u64,
    q: u64,
    path: &[u8],
    columns: u64,
    rows: u64,
    row: u64,
    bytes: &mut [u8],
) -> u64
    ensures { record { answer = result; bytes = bytes.new }
        ≡ host_packed_row (record { w = w; p = p; q = q }) path.now columns rows row bytes.old }
{
    let Checked::Taken(s) = setting::check(w, p, q) else {
        return outcome::refused(Verdict::Refused(limits::BAD_SETTING, 0));
    };
    let call = Call {
        setting: s,
        columns,
        rows,
        row,
        packed: true,
    };
    answer::of_bytes(call, path, bytes)
}
