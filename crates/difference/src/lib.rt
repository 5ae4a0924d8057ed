// Two packed rows laid over each other: how many pixels differ. A row has a byte for each eight
// columns, the leftmost pixel in the highest bit.
#![tactic(auto)]

ghost use Rattle.std.specs.Prelude.{◌≡◌};
ghost use Rattle.difference.specs.Apart.{counted};
ghost use Rattle.difference.specs.Code.{same_word};

mod count;
mod words;

// How many pixels of the two rows differ, spare bits apart; 0 where a row is not whole or is wider
// than a raster.
pub fn differing(a: &[u8], b: &[u8], columns: usize) -> u32
    ensures { result ≡ counted a.now b.now columns }
{
    let length = bits::length_of(columns);
    if columns <= limits::RASTER_MAX && length <= a.len() && length <= b.len() {
        count::of_row(a, b, columns)
    } else {
        0
    }
}

// Whether the eight bytes from `at` on are the same in both; false where they are not all there.
pub fn same_word(a: &[u8], b: &[u8], at: usize) -> bool
    ensures { result ≡ same_word a.now b.now at }
{
    words::has_word(a, at) && words::has_word(b, at) && words::word(a, at) == words::word(b, at)
}
