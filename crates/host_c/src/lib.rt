// The two row functions of host, exported for C: a library is either Rattle's or C's, so each stands here once more, and
// hands its call over.
#![tactic(auto)]

ghost use Rattle.std.specs.Prelude.{◌≡◌};
ghost use Rattle.host.specs.Host.{host_row, host_packed_row};

// The black runs of a row, four bytes each: left and right column, lowest byte first.
#[unsafe(no_mangle)]
pub extern "C" fn zimarolfo_row(
    w: u64,
    p: u64,
    q: u64,
    path: &[u8],
    columns: u64,
    rows: u64,
    row: u64,
    runs: &mut [u8],
) -> u64
    ensures { record { answer = result; bytes = runs.new } ≡ host_row (record { w = w; p = p; q = q }) path.now columns rows row runs.old }
{
    host::zimarolfo_row(w, p, q, path, columns, rows, row, runs)
}

// The same row as packed bits.
#[unsafe(no_mangle)]
pub extern "C" fn zimarolfo_packed_row(
    w: u64,
    p: u64,
    q: u64,
    path: &[u8],
    columns: u64,
    rows: u64,
    row: u64,
    bytes: &mut [u8],
) -> u64
    ensures { record { answer = result; bytes = bytes.new }
        ≡ host_packed_row (record { w = w; p = p; q = q }) path.now columns rows row bytes.old }
{
    host::zimarolfo_packed_row(w, p, q, path, columns, rows, row, bytes)
}
