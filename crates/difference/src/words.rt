// Words: the eight bytes from a place on as one number, the first byte lowest.
ghost use Rattle.std.specs.Prelude.{◌≡◌, ◌+◌, ◌*◌, ◌≤◌, length};
ghost use Rattle.limits.specs.Sizes.{raster_max};
ghost use Rattle.wire.specs.Read.{number_at};
ghost use Rattle.difference.specs.Apart.{differing};
ghost use Rattle.difference.specs.Code.{differing_from, has_word};

// The eight bytes from `at` on.
pub fn word(s: &[u8], at: usize) -> u64
    requires { at + 8 ≤ length s.now }
    ensures { result ≡ number_at s.now at }
{
    u64::from_le_bytes([
        s[at],
        s[at + 1],
        s[at + 2],
        s[at + 3],
        s[at + 4],
        s[at + 5],
        s[at + 6],
        s[at + 7],
    ])
}

// Whether the eight bytes from `at` on are all there.
pub fn has_word(s: &[u8], at: usize) -> bool
    ensures { result ≡ has_word s.now at }
{
    let length = s.len();
    8 <= length && at <= length - 8
}

// How many pixels differ in the eight bytes from `at` on.
fn of_word(a: &[u8], b: &[u8], at: usize) -> u32
    requires first { at + 8 ≤ length a.now }
    requires second { at + 8 ≤ length b.now }
    ensures { result ≡ differing_from a.now b.now (8 * at) 64 }
{
    (word(a, at) ^ word(b, at)).count_ones()
}

// How many pixels differ in the first n words. No branch depends on the bytes.
pub fn of_words(a: &[u8], b: &[u8], n: usize) -> u32
    requires few { 64 * n ≤ raster_max }
    requires first { 8 * n ≤ length a.now }
    requires second { 8 * n ≤ length b.now }
    ensures { result ≡ differing a.now b.now (64 * n) }
{
    let mut total: u32 = 0;
    for i in 0..n {
        total += of_word(a, b, 8 * i);
    }
    total
}
