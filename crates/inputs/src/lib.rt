// What a program is given: numbers among the words of its command line, and standard input; and, in
// requests, how a test tool is asked and answers.
#![tactic(auto)]

ghost use Rattle.std.specs.Prelude.{◌≡◌, ◌<◌, ◌≤◌, length, take, IfOk};
ghost use Rattle.std.specs.Io.KnownBytes.{Consumes, IsAtEnd};
ghost use Rattle.io.specs.Counts.{IsPrefixLen};
ghost use Rattle.inputs.specs.Number.{lengthened, number_of, number_in};

use std::env::{Env, FillError};
use std::io;
use std::io::{Read, Stdin};

mod requests;

pub use requests::{Leave, head, put, put_answer, put_list, put_number, record, rest, serve};

// How many bytes of a word are read for a number: a longer one is no number.
const WORD_MAX: usize = 4096;

// Why a text is no number: it is empty; or it has something else than digits, or is too large.
#[derive(Clone, Copy, PartialEq, Eq, Debug)]
pub enum NumberError {
    Empty,
    Wrong,
}

// A number with one byte more.
fn lengthened(n: u64, b: u8) -> Result<u64, NumberError>
    ensures { result ≡ lengthened n b }
{
    match b {
        b'0'..=b'9' => n
            .checked_mul(10)
            .and_then(|m| m.checked_add(u64::from(b - b'0')))
            .ok_or(NumberError::Wrong),
        _ => Err(NumberError::Wrong),
    }
}

// The number that a text is.
pub fn read_number(text: &[u8]) -> Result<u64, NumberError>
    ensures { result ≡ number_of text.now }
{
    if text.is_empty() {
        return Err(NumberError::Empty);
    }
    let mut n = 0;
    for b in text {
        n = lengthened(n, *b)?;
    }
    Ok(n)
}

// The number in a buffer for a word, of which so many bytes were filled: none in a word that is missing or too long.
fn number_in(word: &[u8], filled: Result<usize, FillError>) -> Result<u64, NumberError>
    requires { IfOk filled (λ n. n ≤ length word.now) }
    ensures { result ≡ number_in word.now filled }
{
    match filled {
        Ok(n) => read_number(&word[..n]),
        Err(_) => Err(NumberError::Wrong),
    }
}

// The number that a word of the command line is. What words there are no contract can say.
pub fn word_number(rt: &impl Env, i: usize) -> Result<u64, NumberError> {
    let mut word = [0u8; WORD_MAX];
    let filled = rt.arg(i, &mut word);
    number_in(&word, filled)
}

// Fills buf from a reader, as far as that has bytes, and answers how many came. A read that fails never passes
// for the end.
fn fill_from<R: Read>(input: &mut R, buf: &mut [u8]) -> io::Result<usize>
    ensures count { IfOk result (λ n. IsPrefixLen n buf.new) }
    ensures bytes { IfOk result (λ n. Consumes (R.remaining input.old) (R.remaining input.new) (take n buf.new)) }
    ensures all { IfOk result (λ n. n < length buf.new → IsAtEnd (R.remaining input.new)) }
{
    let mut done = 0;
    while done < buf.len() {
        match input.read(&mut buf[done..])? {
            0 => break,
            n => done += n,
        }
    }
    Ok(done)
}

// Fills buf from standard input.
pub fn fill(mut input: Stdin, buf: &mut [u8]) -> io::Result<usize>
    ensures { IfOk result (λ n. IsPrefixLen n buf.new) }
{
    fill_from(&mut input, buf)
}

// Why a word could not be read, as an error of the system.
pub fn word_error(e: FillError) -> io::Error {
    match e {
        FillError::TooLong => {
            io::Error::new(io::ErrorKind::InvalidFilename, "File name too long")
        }
        FillError::NotPresent => io::Error::new(io::ErrorKind::InvalidInput, "Invalid argument"),
    }
}

// Whether the program was started with a word of that number, its own name being word 0.
pub fn is_given(rt: &impl Env, i: usize) -> bool {
    !matches!(rt.arg(i, &mut []), Err(FillError::NotPresent))
}

// How many words the program was started with, its own name among them.
pub fn word_count(rt: &impl Env) -> usize {
    (0..usize::MAX)
        .find(|i| !is_given(rt, *i))
        .unwrap_or(usize::MAX)
}
