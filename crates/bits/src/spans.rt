// A span of columns laid over bytes: the bits of its first byte, whole bytes, and the bits of its
// last. The cost is one step for each byte.
ghost use Rattle.std.specs.Prelude.{◌≡◌, ◌+◌, ◌*◌, ◌≤◌, ◌<◌};
ghost use Rattle.bits.specs.Bits.{span, blackened};

// ONES[n] is the byte whose first n bits are clear and whose others are set.
const ONES: [u8; 9] = [255, 127, 63, 31, 15, 7, 3, 1, 0];

// The columns of byte k from the l-th on and before the e-th: the bits from l on less the bits from e
// on.
fn lay_byte(bytes: &mut [u8], k: usize, l: usize, e: usize)
    requires ordered { l ≤ e }
    requires few { e ≤ 8 }
    ensures { bytes.new ≡ blackened (span (8 * k + l) (8 * k + e)) bytes.old }
{
    if k < bytes.len() {
        bytes[k] |= ONES[l] - ONES[e];
    }
}

// The columns of the bytes from `first` on and before `last`.
fn lay_bytes(bytes: &mut [u8], first: usize, last: usize)
    ensures { bytes.new ≡ blackened (span (8 * first) (8 * last)) bytes.old }
{
    let n = last.min(bytes.len());
    if first < n {
        bytes[first..n].fill(255);
    }
}

// The columns of a span that has some.
pub fn lay_some(bytes: &mut [u8], left: usize, end: usize)
    requires { left < end }
    ensures { bytes.new ≡ blackened (span left end) bytes.old }
{
    let first = left / 8;
    let last = (end - 1) / 8;
    lay_byte(bytes, first, left % 8, (end - 8 * first).min(8));
    if first < last {
        lay_bytes(bytes, first + 1, last);
        lay_byte(bytes, last, 0, (end - 1) % 8 + 1);
    }
}
