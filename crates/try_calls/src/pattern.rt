// What stands in a list or a buffer before it is lent.
ghost use Rattle.std.specs.Prelude.{◌≡◌, ℕ, ◌<◌, ◌^◌, length};
ghost use Rattle.try_calls.specs.Pattern.{byte_at, pair_at, run_at, pattern};

use records::Run;

pub trait Patterned: Drop {
    ghost at: { ℕ → Self };

    // What stands at an index.
    fn at(i: usize) -> Self
        requires { i < 2 ^ 63 }
        ensures { result ≡ at i };
}

impl Patterned for u8 {
    ghost at = { byte_at };

    fn at(i: usize) -> u8 {
        ((37 * (i % 256) + 11) % 256) as u8
    }
}

// Two such bytes, the lowest first.
fn pair_at(i: usize) -> u16
    ensures { result ≡ pair_at i }
{
    let first = 2 * (i % 128);
    u16::from(u8::at(first)) + 256 * u16::from(u8::at(first + 1))
}

impl Patterned for u16 {
    ghost at = { pair_at };

    fn at(i: usize) -> u16 {
        pair_at(i)
    }
}

impl Patterned for Run {
    ghost at = { run_at };

    fn at(i: usize) -> Run {
        Run {
            left: pair_at(2 * i),
            right: pair_at(2 * i + 1),
        }
    }
}

pub fn fill<T: Patterned>(list: &mut [T])
    requires { length list.old < 2 ^ 63 }
    ensures { list.new ≡ pattern T.at (length list.old) }
{
    for i in 0..list.len() {
        list[i] = T::at(i);
    }
}
