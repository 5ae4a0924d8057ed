// The count of a row: words first, then the bytes that are left, then the pixels of a last byte
// that has spare bits.
ghost use Rattle.std.specs.Prelude.{◌≡◌, ◌-◌, ◌*◌, ◌/◌, ◌^◌, ◌≤◌, ◌<◌, length};
ghost use Rattle.std.specs.Int.Count.{ones};
ghost use Rattle.limits.specs.Sizes.{raster_max};
ghost use Rattle.bits.specs.Bits.{packed_length};
ghost use Rattle.difference.specs.Apart.{differing};
ghost use Rattle.difference.specs.Code.{differing_from};

// How many of the n leftmost pixels of a byte are black: the others are its lowest bits.
fn leftmost(x: u8, n: u32) -> u32
    requires some { 0 < n }
    requires few { n ≤ 8 }
    ensures { result ≡ ones (x / 2 ^ (8 - n)) }
{
    (x >> (8 - n)).count_ones()
}

// How many of the n leftmost pixels of byte k differ.
fn of_byte(a: &[u8], b: &[u8], k: usize, n: u32) -> u32
    requires first { k < length a.now }
    requires second { k < length b.now }
    requires some { 0 < n }
    requires few { n ≤ 8 }
    ensures { result ≡ differing_from a.now b.now (8 * k) n }
{
    leftmost(a[k] ^ b[k], n)
}

// How many pixels differ in the first n bytes.
fn of_bytes(a: &[u8], b: &[u8], n: usize) -> u32
    requires few { 8 * n ≤ raster_max }
    requires first { n ≤ length a.now }
    requires second { n ≤ length b.now }
    ensures { result ≡ differing a.now b.now (8 * n) }
{
    let mut total = crate::words::of_words(a, b, n / 8);
    for k in n / 8 * 8..n {
        total += of_byte(a, b, k, 8);
    }
    total
}

// How many pixels differ in rows that are there.
pub fn of_row(a: &[u8], b: &[u8], columns: usize) -> u32
    requires few { columns ≤ raster_max }
    requires first { packed_length columns ≤ length a.now }
    requires second { packed_length columns ≤ length b.now }
    ensures { result ≡ differing a.now b.now columns }
{
    let whole = columns / 8;
    let total = of_bytes(a, b, whole);
    let used = (columns % 8) as u32;
    if used == 0 {
        return total;
    }
    total + of_byte(a, b, whole, used)
}
