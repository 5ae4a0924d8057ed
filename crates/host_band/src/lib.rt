// A stroke laid over a band of a film, for a host program in C: numbers and byte slices only.
//
// The way of the data: the path's coordinates from bytes (wire), the band's rows for the setting
// (band), and the answer in one number (outcome); answer leads through these.
#![tactic(auto)]

ghost use Rattle.std.specs.Prelude.{◌≡◌};
ghost use Rattle.host_band.specs.HostBand.{host_band};

mod answer;

use crate::answer::Call;

// Lays the stroke over n_rows rows of a raster, from row first_row on. The top one of them stands
// first in the bytes, and each `stride` bytes after the one above it.
pub fn zimarolfo_band(
    w: u64,
    p: u64,
    q: u64,
    path: &[u8],
    columns: u64,
    rows: u64,
    first_row: u64,
    n_rows: u64,
    bytes: &mut [u8],
    stride: u64,
) -> u64
    ensures { record { answer = result; bytes = bytes.new }
        ≡ host_band (record { w = w; p = p; q = q }) path.now columns rows first_row n_rows stride bytes.old }
{
    let call = Call {
        w,
        p,
        q,
        columns,
        rows,
        first: first_row,
        n: n_rows,
        stride: stride as usize,
    };
    answer::of_bytes(call, path, bytes)
}
