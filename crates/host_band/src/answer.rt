// What a band call answers for a setting and a path of bytes.
ghost use Rattle.std.specs.Prelude.{◌≡◌, ◌*◌, ◌≤◌, length};
ghost use Rattle.limits.specs.Sizes.{entries_max};
ghost use Rattle.wire.specs.Read.{entries_of};
ghost use Rattle.host_band.specs.Call.{entries_call, bytes_call};

use limits::{ENTRIES_MAX, Verdict};
use setting::Checked;

// How many entries a short path has at most, and how many bytes.
const SHORT: usize = 64;

const SHORT_BYTES: usize = 4 * SHORT;

// What is asked for: n rows of a raster, from row `first` on, for a setting.
#[derive(Clone, Copy)]
pub struct Call {
    pub w: u64,
    pub p: u64,
    pub q: u64,
    pub columns: u64,
    pub rows: u64,
    pub first: u64,
    pub n: u64,
    pub stride: usize,
}

// The band's answer in one number.
fn of_entries(call: Call, path: &[i32], bytes: &mut [u8]) -> u64
    ensures { record { answer = result; bytes = bytes.new } ≡ entries_call call path.now bytes.old }
{
    let a = band::lay(
        call.w,
        call.p,
        call.q,
        path,
        call.columns,
        call.rows,
        call.first,
        call.n,
        bytes,
        call.stride,
    );
    outcome::code(a)
}

// The path's coordinates go into an array of N.
fn decoded<const N: usize>(call: Call, path: &[u8], bytes: &mut [u8]) -> u64
    requires few { N ≤ entries_max }
    requires short { length path.now ≤ 4 * N }
    ensures { record { answer = result; bytes = bytes.new } ≡ entries_call call (entries_of path.now) bytes.old }
{
    let mut entries = [0i32; N];
    wire::decode(path, &mut entries);
    let n = path.len() / 4;
    of_entries(call, &entries[..n], bytes)
}

// The setting and the length of the bytes come before the path is read. The band checks the setting
// once more, but only after the length. Most paths are short, and to clear an array for the longest
// would cost more than a small stroke.
pub fn of_bytes(call: Call, path: &[u8], bytes: &mut [u8]) -> u64
    ensures { record { answer = result; bytes = bytes.new } ≡ bytes_call call path.now bytes.old }
{
    let Checked::Taken(_) = setting::check(call.w, call.p, call.q) else {
        return outcome::refused(Verdict::Refused(limits::BAD_SETTING, 0));
    };
    let of_bytes = outcome::bytes_check(path.len());
    let Verdict::Passed = of_bytes else {
        return outcome::refused(of_bytes);
    };
    if path.len() <= SHORT_BYTES {
        return decoded::<SHORT>(call, path, bytes);
    }
    decoded::<ENTRIES_MAX>(call, path, bytes)
}
