// Pieces of text in a lent buffer, and numbers in decimal.
#![tactic(auto)]

ghost use Rattle.std.specs.Prelude.{◌≡◌, ◌+◌, leb};
ghost use Rattle.text.specs.Decimal.{decimal};
ghost use Rattle.text.specs.Put.{put_at};

// Whether so many bytes fit from index at on into a buffer of that length. The sum of the first two
// may be more than a usize holds.
fn fits(at: usize, count: usize, length: usize) -> bool
    ensures { result ≡ leb (at + count) length }
{
    at <= length && count <= length - at
}

// Puts the bytes of src from index at on, and tells where they end. Where they do not fit, nothing
// is put, and the end is where they would have started.
pub fn put(out: &mut [u8], at: usize, src: &[u8]) -> usize
    ensures { record { end = result; buffer = out.new } ≡ put_at out.old at src.now }
{
    if !fits(at, src.len(), out.len()) {
        return at;
    }
    let end = at + src.len();
    out[at..end].copy_from_slice(src);
    end
}

// Puts the digits of n from index at on, as put does.
pub fn put_decimal(out: &mut [u8], at: usize, n: u64) -> usize
    ensures { record { end = result; buffer = out.new } ≡ put_at out.old at (decimal n) }
{
    let mut digits = [0u8; 20];
    let count = io::decimal(n, &mut digits);
    put(out, at, &digits[..count])
}
