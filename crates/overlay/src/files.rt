// Films as files, read at a place. A read that fails is told, and never passes for the file's end.
ghost use Rattle.std.specs.Prelude.{◌+◌, ◌≤◌, length, IfOk};
ghost use Rattle.io.specs.Counts.{IsPrefixLen};

use crate::output::Told;
use std::fs::File;
use std::io;
use std::io::Stderr;
use std::os::unix::fs::FileExt;

// No film reaches this far into a file.
pub const FAR: u64 = 1 << 40;

// An open file, and its name.
#[derive(Clone, Copy)]
pub struct Film<'a> {
    pub file: &'a File,
    pub name: &'a [u8],
}

// One read into buf from index `done` on, of the file's bytes from offset + done on, and how many came.
fn read_some(file: &File, buf: &mut [u8], done: usize, offset: u64) -> io::Result<usize>
    requires { done ≤ length buf.old }
    ensures { IfOk result (λ n. done + n ≤ length buf.old) }
{
    if FAR < offset || FAR < done as u64 {
        return Err(io::Error::from(io::ErrorKind::InvalidInput));
    }
    file.read_at(&mut buf[done..], offset + done as u64)
}

// Fills buf with the bytes of the film from `offset` on, as far as there are any, and answers how
// many came: fewer than were asked for only where the file ended.
pub fn read_at(film: Film, errors: Stderr, buf: &mut [u8], offset: u64) -> Result<usize, Told>
    ensures { IfOk result (λ n. IsPrefixLen n buf.new) }
{
    let mut done = 0;
    while done < buf.len() {
        match read_some(film.file, buf, done, offset) {
            Err(e) => {
                tell::fail(errors, film.name, e);
                return Err(Told);
            }
            Ok(0) => break,
            Ok(n) => done += n,
        }
    }
    Ok(done)
}
