// A row of pixels as bits: a byte for each eight columns, the leftmost pixel in the highest bit,
// black 1.
#![tactic(auto)]

ghost use Rattle.std.specs.Prelude.{◌≡◌, ◌+◌, ◌*◌};
ghost use Rattle.bits.specs.Bits.{packed_length, bit_at, span, blackened};

mod spans;

// How many bytes a row of so many columns fills.
pub fn length_of(columns: usize) -> usize
    ensures { result ≡ packed_length columns }
{
    columns.div_ceil(8)
}

// Whether column x is black. Past the bytes none is.
pub fn is_black(bytes: &[u8], x: usize) -> bool
    ensures { result ≡ bit_at bytes.now x }
{
    let k = x / 8;
    k < bytes.len() && (bytes[k] >> (7 - x % 8)) % 2 == 1
}

// Blackens the columns from `left` on and before `end`, as far as the bytes go. Every other bit
// stays as it was.
pub fn lay_span(bytes: &mut [u8], left: usize, end: usize)
    ensures { bytes.new ≡ blackened (span left end) bytes.old }
{
    if left < end {
        spans::lay_some(bytes, left, end);
    }
}

// The same over the bytes from byte `at` on.
pub fn lay_span_from(bytes: &mut [u8], at: usize, left: usize, end: usize)
    ensures { bytes.new ≡ blackened (span (8 * at + left) (8 * at + end)) bytes.old }
{
    if at < bytes.len() {
        lay_span(&mut bytes[at..], left, end);
    }
}
