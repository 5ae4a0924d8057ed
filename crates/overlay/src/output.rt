// What is written on standard output: a page at a time, since a call for each short line would take
// longer than reading the films.
use std::io::{Print, Stderr, Stdout};

// That there is no whole report, and that it has been told why.
#[derive(Clone, Copy, Debug)]
pub struct Told;

// Tells what cannot be: by what `compare` promises no branch that calls this is taken.
pub fn fault(told: Stderr) -> Told {
    tell::say(told, b"overlay: a fault of the program, and no report\n");
    Told
}

// Writes the first bytes of a text. A write that fails is told.
pub fn write(to: Stdout, told: Stderr, text: &[u8], count: usize) -> Result<(), Told> {
    let Some(text) = text.get(..count) else {
        return Err(fault(told));
    };
    Print::write_all(&to, text).map_err(|e| {
        tell::fail(told, b"standard output", e);
        Told
    })
}

// How many bytes a page has.
const PAGE: usize = 65536;

// The bytes that are still to be written, `used` of them, and where they are written and faults told.
#[derive(Drop)]
pub struct Page {
    to: Stdout,
    pub told: Stderr,
    bytes: [u8; PAGE],
    used: usize,
}

impl Page {
    pub fn new(to: Stdout, told: Stderr) -> Page {
        Page {
            to,
            told,
            bytes: [0; PAGE],
            used: 0,
        }
    }

    // Writes the page, which is empty then.
    pub fn write(&mut self) -> Result<(), Told> {
        let used = self.used;
        self.used = 0;
        write(self.to, self.told, &self.bytes, used)
    }

    // Puts the first bytes of a text on the page. Where they have no room it is written first, and
    // what is longer than a page by itself.
    pub fn put(&mut self, text: &[u8], count: usize) -> Result<(), Told> {
        let Some(text) = text.get(..count) else {
            return Err(fault(self.told));
        };
        let end = text::put(&mut self.bytes, self.used, text);
        if self.used < end {
            self.used = end;
            return Ok(());
        }
        self.write()?;
        self.used = text::put(&mut self.bytes, 0, text);
        if self.used == 0 {
            write(self.to, self.told, text, count)?;
        }
        Ok(())
    }
}
