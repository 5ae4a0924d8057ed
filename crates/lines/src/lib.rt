// The lines that tell where two packed rows differ, as text in a lent buffer.
#![tactic(auto)]

ghost use Rattle.std.specs.Prelude.{◌≡◌};
ghost use Rattle.lines.specs.Put.{is_whole, is_ready, row_put};

mod row;

// No row's text is longer: a line as "row 16383 16384" and 16,384 as "16383 16383 1", with their
// line ends.
pub const TEXT_ROOM: usize = 229392;

// Whether both packed rows have so many bytes, and there is room for any row's text.
fn is_whole(length: usize, first: usize, second: usize, room: usize) -> bool
    ensures { result ≡ is_whole length first second room }
{
    length <= first && length <= second && TEXT_ROOM <= room
}

fn is_ready(columns: u64, row: u64, first: usize, second: usize, room: usize) -> bool
    ensures { result ≡ is_ready columns row first second room }
{
    limits::is_size(columns)
        && row < limits::RASTER_MAX as u64
        && is_whole(bits::length_of(columns as usize), first, second, room)
}

// Puts the text of a row at the start of out: the line of its number, and a line for each pixel in
// which the two packed rows differ. Answers how many bytes it has. Where there is no such row, a
// packed row is not whole or out is shorter than TEXT_ROOM, nothing is put.
pub fn put_row(out: &mut [u8], a: &[u8], b: &[u8], columns: u64, row: u64) -> Option<usize>
    ensures { record { count = result; buffer = out.new } ≡ row_put a.now b.now columns row out.old }
{
    if !is_ready(columns, row, a.len(), b.len(), out.len()) {
        return None;
    }
    Some(row::put_whole(out, a, b, columns as usize, row))
}
