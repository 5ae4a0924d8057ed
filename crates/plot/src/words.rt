// The words of the command line: each is a number, but for the first, which may be `rows`.
ghost use Rattle.std.specs.Prelude.{◌≤◌};

use crate::refusal::NoFilm;
use std::env::Env;

// Whether the first word is `rows`.
pub fn is_rows(rt: &impl Env) -> bool {
    let mut word = [0u8; 4];
    matches!(rt.arg(1, &mut word), Ok(4)) && word == *b"rows"
}

// Fills the list with the words behind the first ones, so many. A word that is no number is refused, counted
// from 1.
pub fn read_words(rt: &impl Env, numbers: &mut [u64], skipped: usize) -> Result<(), NoFilm>
    requires { skipped ≤ 1 }
{
    for i in 0..numbers.len() {
        let word = skipped + i + 1;
        numbers[i] = inputs::word_number(rt, word).map_err(|_| NoFilm::Word(word))?;
    }
    Ok(())
}
