// What the tool writes, a page at a time.
ghost use Rattle.std.specs.Prelude.{◌≤◌};

use crate::stop;
use crate::stop::Stop;
use std::io;
use std::io::{Print, Stderr, Stdout, Write};

const PAGE: usize = 65536;

// used: how many bytes of the page. is_failed: a write failed.
#[derive(Drop)]
pub struct Page {
    out: Stdout,
    errors: Stderr,
    bytes: [u8; PAGE],
    used: usize,
    is_failed: bool,
    ghost within: { used ≤ 65536 },
}

impl Page {
    pub fn new(out: Stdout, errors: Stderr) -> Page {
        Page {
            out,
            errors,
            bytes: [0; PAGE],
            used: 0,
            is_failed: false,
        }
    }
}

// A page is written first where a text does not fit any more. A write that fails is told at once, and nothing is
// written from then on. But no call fails: the file is read on, and what else goes wrong is told too.
impl Write for Page {
    fn write(&mut self, text: &[u8]) -> io::Result<usize> {
        if PAGE - self.used < text.len() {
            self.flush()?;
        }
        let n = text.len().min(PAGE - self.used);
        let end = self.used + n;
        self.bytes[self.used..end].copy_from_slice(&text[..n]);
        self.used = end;
        Ok(n)
    }

    // In parts where a text is longer than a page.
    fn write_all(&mut self, text: &[u8]) -> io::Result<()> {
        for part in text.chunks(PAGE) {
            self.write(part)?;
        }
        Ok(())
    }

    fn flush(&mut self) -> io::Result<()> {
        let used = self.used;
        self.used = 0;
        if self.is_failed {
            return Ok(());
        }
        if let Err(e) = Print::write_all(&self.out, &self.bytes[..used]) {
            self.is_failed = true;
            stop::tell(self.errors, Stop::Unwritten(e));
        }
        Ok(())
    }
}
