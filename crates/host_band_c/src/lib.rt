// The function of host_band, exported for C: a library is either Rattle's or C's, so it stands here once more, and hands
// its call over.
#![tactic(auto)]

ghost use Rattle.std.specs.Prelude.{◌≡◌};
ghost use Rattle.host_band.specs.HostBand.{host_band};

// Lays the stroke over n_rows rows of a raster, from row first_row on. The top one of them stands
// first in the bytes, and each `stride` bytes after the one above it.
#[unsafe(no_mangle)]
pub extern "C" fn zimarolfo_band(
    w: u64,
    p: u64,
    q: u64,
    path: &[u8],
    columns: u64,
    rows: u64,
    first_row: u64,
    n_rows: u64,
    bytes: &mut [u8],
    stride: u64,
) -> u64
    ensures { record { answer = result; bytes = bytes.new }
        ≡ host_band (record { w = w; p = p; q = q }) path.now columns rows first_row n_rows stride bytes.old }
{
    host_band::zimarolfo_band(
        w, p, q, path, columns, rows, first_row, n_rows, bytes, stride,
    )
}
