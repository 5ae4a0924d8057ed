// The text of a row: the line of its number, and the lines of its pixels, left to right. Words that
// are the same in both rows are passed over, and in others bytes that are; a pixel is looked at only
// in a byte that differs.
ghost use Rattle.std.specs.Prelude.{◌≡◌, ℕ, cond, ◌+◌, ◌-◌, ◌*◌, ◌≤◌, ◌<◌, min, length, slice_index};
ghost use Rattle.limits.specs.Sizes.{raster_max};
ghost use Rattle.bits.specs.Bits.{packed_length};
ghost use Rattle.text.specs.Put.{put_at};
ghost use Rattle.lines.specs.Lines.{row_text, film_text, pixel_text, lines_text};
ghost use Rattle.lines.specs.Rows.{row_lines};
ghost use Rattle.lines.specs.Put.{text_room};
ghost use Rattle.lines.specs.Held.{column_text, columns_text, Both};

// The line of a row's number.
fn put_line(out: &mut [u8], row: u64, number: u64) -> usize
    requires row { row ≤ raster_max }
    requires number { number ≤ raster_max }
    requires room { 16 ≤ length out.old }
    ensures { record { end = result; buffer = out.new } ≡ put_at out.old 0 (row_text row number) }
{
    let at = text::put(out, 0, b"row ");
    let at = text::put_decimal(out, at, row);
    let at = text::put(out, at, b" ");
    let at = text::put_decimal(out, at, number);
    text::put(out, at, b"\n")
}

// Which film has a pixel black: the end of its line.
fn put_film(out: &mut [u8], at: usize, first: bool) -> usize
    ensures { record { end = result; buffer = out.new } ≡ put_at out.old at (film_text (cond first 1 2)) }
{
    if first {
        text::put(out, at, b" 1\n")
    } else {
        text::put(out, at, b" 2\n")
    }
}

// The line of a pixel that the first film has black, or the second. The digits are those of its row.
fn put_pixel(out: &mut [u8], at: usize, column: u64, digits: &[u8], first: bool) -> usize
    requires column { column ≤ raster_max }
    requires digits { length digits.now ≤ 5 }
    requires room { at + 14 ≤ length out.old }
    ensures { record { end = result; buffer = out.new } ≡ put_at out.old at (pixel_text column digits.now (cond first 1 2)) }
{
    let at = text::put_decimal(out, at, column);
    let at = text::put(out, at, b" ");
    let at = text::put(out, at, digits);
    put_film(out, at, first)
}

// Two packed rows that are there, of so many columns, and the digits of their number.
#[derive(Drop)]
struct Rows<'a> {
    a: &'a [u8],
    b: &'a [u8],
    digits: &'a [u8],
    columns: usize,
    ghost few: { columns ≤ raster_max },
    ghost first: { packed_length columns ≤ length a.now },
    ghost second: { packed_length columns ≤ length b.now },
    ghost first_bytes: { (k : ℕ) → slice_index a.now k < 256 },
    ghost second_bytes: { (k : ℕ) → slice_index b.now k < 256 },
    ghost short: { length digits.now ≤ 5 },
}

// Three loops, and not one over a closure: its contract would have to say the text of each index, in
// more lines than the three have.
impl<'a> Rows<'a> {
    // The line of column i, where the two rows differ there.
    fn put_column(&self, out: &mut [u8], at: usize, i: usize) -> usize
        requires column { i < self.now.columns }
        requires room { at + 14 ≤ length out.old }
        ensures { record { end = result; buffer = out.new } ≡ put_at out.old at (column_text self.now.a.now self.now.b.now self.now.digits.now i) }
    {
        let first = bits::is_black(self.a, i);
        if first == bits::is_black(self.b, i) {
            return at;
        }
        put_pixel(out, at, i as u64, self.digits, first)
    }

    // The lines of the columns from `from` on and before `end`.
    fn put_columns(&self, out: &mut [u8], at: usize, from: usize, end: usize) -> usize
        requires ordered { from ≤ end }
        requires few { end ≤ self.now.columns }
        requires room { at + 14 * (end - from) ≤ length out.old }
        ensures { record { end = result; buffer = out.new } ≡ put_at out.old at (columns_text self.now.a.now self.now.b.now self.now.digits.now from (end - from)) }
    {
        let mut next = at;
        for i in from..end {
            next = self.put_column(out, next, i);
        }
        next
    }

    // The lines of the columns of byte k.
    fn put_byte(&self, out: &mut [u8], at: usize, k: usize) -> usize
        requires column { 8 * k < self.now.columns }
        requires room { at + 14 * (min (8 * k + 8) self.now.columns - 8 * k) ≤ length out.old }
        ensures { record { end = result; buffer = out.new }
            ≡ put_at out.old at (columns_text self.now.a.now self.now.b.now self.now.digits.now (8 * k) (min (8 * k + 8) self.now.columns - 8 * k)) }
    {
        if self.a[k] == self.b[k] {
            return at;
        }
        self.put_columns(out, at, 8 * k, (8 * k + 8).min(self.columns))
    }

    // The lines of the columns of the bytes from `first` on and before `end`.
    fn put_bytes(&self, out: &mut [u8], at: usize, first: usize, end: usize) -> usize
        requires ordered { first ≤ end }
        requires few { end ≤ packed_length self.now.columns }
        requires room { at + 14 * (min (8 * end) self.now.columns - 8 * first) ≤ length out.old }
        ensures { record { end = result; buffer = out.new }
            ≡ put_at out.old at (columns_text self.now.a.now self.now.b.now self.now.digits.now (8 * first) (min (8 * end) self.now.columns - 8 * first)) }
    {
        let mut next = at;
        for k in first..end {
            next = self.put_byte(out, next, k);
        }
        next
    }

    // The lines of the columns of word i, unless it is the same in both rows.
    fn put_word(&self, out: &mut [u8], at: usize, i: usize) -> usize
        requires word { 64 * i + 64 ≤ self.now.columns }
        requires room { at + 14 * 64 ≤ length out.old }
        ensures { record { end = result; buffer = out.new }
            ≡ put_at out.old at (columns_text self.now.a.now self.now.b.now self.now.digits.now (64 * i) 64) }
    {
        if difference::same_word(self.a, self.b, 8 * i) {
            return at;
        }
        self.put_bytes(out, at, 8 * i, 8 * i + 8)
    }

    // The lines of the columns of the first n words.
    fn put_words(&self, out: &mut [u8], at: usize, n: usize) -> usize
        requires words { 64 * n ≤ self.now.columns }
        requires room { at + 14 * (64 * n) ≤ length out.old }
        ensures { record { end = result; buffer = out.new }
            ≡ put_at out.old at (columns_text self.now.a.now self.now.b.now self.now.digits.now 0 (64 * n)) }
    {
        let mut next = at;
        for i in 0..n {
            next = self.put_word(out, next, i);
        }
        next
    }

    // The lines of all columns: of the words, and of the bytes behind them.
    fn put_pixels(&self, out: &mut [u8], at: usize) -> usize
        requires room { at + 14 * self.now.columns ≤ length out.old }
        ensures { record { end = result; buffer = out.new }
            ≡ put_at out.old at (columns_text self.now.a.now self.now.b.now self.now.digits.now 0 self.now.columns) }
    {
        let n = self.columns / 64;
        let next = self.put_words(out, at, n);
        self.put_bytes(out, next, 8 * n, bits::length_of(self.columns))
    }
}

// The text of a row that is there, at the start of out.
pub fn put_whole(out: &mut [u8], a: &[u8], b: &[u8], columns: usize, row: u64) -> usize
    requires rows { Both a.now b.now columns }
    requires row { row ≤ raster_max }
    requires room { text_room ≤ length out.old }
    ensures { record { end = result; buffer = out.new } ≡ put_at out.old 0 (lines_text (row_lines a.now b.now columns row)) }
{
    let number = difference::differing(a, b, columns);
    let at = put_line(out, row, number as u64);
    if number == 0 {
        return at;
    }
    let mut space = [0u8; 20];
    let n = io::decimal(row, &mut space);
    let digits = &space[..n];
    let rows = Rows {
        a,
        b,
        digits,
        columns,
    };
    rows.put_pixels(out, at)
}
