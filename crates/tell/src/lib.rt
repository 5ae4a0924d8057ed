// What a program tells: its file on standard output, or on standard error why there is none. A
// program ends with no exit status of its own, so whoever runs it looks at what was written.
#![tactic(auto)]

ghost use Rattle.std.specs.Prelude.{◌≡◌, true, ◌≤◌, length, IsOk};
ghost use Rattle.tell.specs.Message.{message_of};

use checks::Answer;
use std::fmt;
use std::fmt::Display;
use std::io::{Cursor, Error, Print, Stderr, Stdout, Write};

// Writes the file, the first bytes of those lent, as many as the answer counts. A refusal, and a
// write that fails, are told in the name of the program, with nothing or a part written. Answers
// whether all was written.
pub fn deliver(out: Stdout, told: Stderr, program: &[u8], answer: Answer, file: &[u8]) -> bool
    ensures taken { result ≡ true → answer.refusal ≡ 0 }
    ensures whole { result ≡ true → answer.count ≤ length file.now }
{
    if answer.refusal != limits::DONE {
        refused(told, program, answer);
        return false;
    }
    if let Some(written) = file.get(..answer.count as usize)
        && Print::write_all(&out, written).is_ok()
    {
        return true;
    }
    say(told, program);
    say(told, b": the file could not be written\n");
    false
}

// Tells a piece of a line. What cannot be told is told nowhere else.
pub fn say(told: Stderr, text: &[u8]) {
    let _ = Print::write_all(&told, text);
}

// Writes each piece of a text by itself, and goes on behind one that cannot be written.
#[derive(Drop)]
struct Pieces<P> {
    to: P,
}

impl<P: Print> fmt::Write for Pieces<P> {
    fn write_str(&mut self, text: &str) -> fmt::Result
        ensures ok { IsOk result }
    {
        let _ = Print::write_all(&self.to, text.as_bytes());
        Ok(())
    }
}

// Tells a text piece by piece, as it is made up: what cannot be told of it is told nowhere else, and
// what comes behind that is told.
pub fn piecewise<P: Print + Drop, D: Display + Drop>(to: P, text: D) {
    let _ = fmt::Write::write(&mut Pieces { to }, text);
}

// As "film: refused with 6, place 0".
fn refused(told: Stderr, program: &[u8], answer: Answer) {
    let Answer { refusal, place, .. } = answer;
    say(told, program);
    piecewise(
        told,
        format_args!(": refused with {refusal}, place {place}\n"),
    );
}

// The message of an error of the system: std ends its text by the error's number, as in
// "Is a directory (os error 21)".
fn message(text: &[u8]) -> &[u8]
    ensures { result.now ≡ message_of text.now }
{
    for i in 0..text.len() {
        if text[i..].starts_with(b" (os error ") {
            return &text[..i];
        }
    }
    text
}

// Tells what failed, and the system's message of why, as "plot: standard input: Is a directory".
pub fn fail(told: Stderr, what: &[u8], error: Error) {
    let mut line = Cursor::new([0u8; 256]);
    let _ = write!(line, "{error}");
    let length = line.position().min(256) as usize;
    let text = line.into_inner();
    say(told, what);
    say(told, b": ");
    say(told, message(&text[..length]));
    say(told, b"\n");
}
