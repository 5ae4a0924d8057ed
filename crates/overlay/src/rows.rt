// The rows of two films of one size, the top row first: read a block of rows at a time, and told row
// by row.
ghost use Rattle.std.specs.Prelude.{◌*◌, ◌≤◌};

use crate::files::{FAR, Film, read_at};
use crate::output::{Page, Told, fault};
use compare::{Overlay, Sizes};
use std::io::{Stderr, Stdout};

// How many bytes of each film are read at a time: at least 32 rows.
const BLOCK: usize = 65536;

// The bytes of some rows, as many as fill space. A file that ends before them has changed since its
// end was looked at.
fn read_rows(film: Film, told: Stderr, space: &mut [u8], offset: u64) -> Result<(), Told> {
    if read_at(film, told, space, offset)? < space.len() {
        tell::say(told, film.name);
        tell::say(told, b": ended within a row, having been whole before\n");
        return Err(Told);
    }
    Ok(())
}

// Puts the rows of a block, `width` bytes each, on the page.
fn put_block(
    mut overlay: Overlay,
    width: usize,
    a: &[u8],
    b: &[u8],
    out: &mut [u8],
    page: &mut Page,
) -> Result<(), Told>
    requires { 1 ≤ width }
{
    for (x, y) in a.chunks_exact(width).zip(b.chunks_exact(width)) {
        let Some(count) = compare::next_row(&mut overlay, x, y, out) else {
            return Err(fault(page.told));
        };
        page.put(out, count)?;
    }
    Ok(())
}

// How many rows of so many bytes are read at a time, of those that are left.
fn rows_of_block(width: usize, left: u64) -> usize
    requires { 1 ≤ width }
    ensures left { result ≤ left }
    ensures room { result * width ≤ 65536 }
{
    (BLOCK / width).min(left as usize)
}

// Puts all rows of two films on the page, which is written where it is full.
fn put_rows(
    first: Film,
    second: Film,
    sizes: Sizes,
    out: &mut [u8],
    page: &mut Page,
) -> Result<(), Told> {
    let told = page.told;
    let columns = sizes.columns;
    let width = bits::length_of(columns as usize);
    if width < 1 {
        return Err(fault(told));
    }
    let mut a = [0u8; BLOCK];
    let mut b = [0u8; BLOCK];
    let mut left = sizes.rows;
    let mut offset = sizes.start as u64;
    while left > 0 {
        let count = rows_of_block(width, left);
        if count < 1 || FAR < offset {
            return Err(fault(told));
        }
        let length = count * width;
        read_rows(first, told, &mut a[..length], offset)?;
        read_rows(second, told, &mut b[..length], offset)?;
        let overlay = Overlay { columns, left };
        put_block(overlay, width, &a[..length], &b[..length], out, page)?;
        left -= count as u64;
        offset += length as u64;
    }
    Ok(())
}

// Tells all rows of two films. What was on the page is written where a film cannot be read further,
// too.
pub fn tell_rows(
    to: Stdout,
    told: Stderr,
    first: Film,
    second: Film,
    sizes: Sizes,
    out: &mut [u8],
) -> Result<(), Told> {
    let mut page = Page::new(to, told);
    let all = put_rows(first, second, sizes, out, &mut page);
    page.write()?;
    all
}
