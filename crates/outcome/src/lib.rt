// What the functions for C share: how many bytes a path can be, and the answer in one number.
#![tactic(auto)]

ghost use Rattle.std.specs.Prelude.{◌≡◌};
ghost use Rattle.limits.specs.Refusal.{path, unless};
ghost use Rattle.checks.specs.Answer.{answer_of};
ghost use Rattle.outcome.specs.Outcome.{coded};
ghost use Rattle.outcome.specs.Read.{is_path};
ghost use Rattle.outcome.specs.Fit.{fitted};

use checks::Answer;
use limits::Verdict;

// How many bytes the longest path has.
const BYTES_MAX: usize = 4 * limits::ENTRIES_MAX;

// The three numbers in one. Of a number that does not fit its bits, what fits is told, so that none
// reaches into the next one's.
pub fn code(a: Answer) -> u64
    ensures { result ≡ coded (fitted a) }
{
    a.refusal % 256 + 256 * (a.place % 16777216) + 4294967296 * (a.count % 4294967296)
}

// What a call answers that goes no further than this check.
pub fn refused(v: Verdict) -> u64
    ensures { result ≡ coded (fitted (answer_of v)) }
{
    code(checks::report(v))
}

// Whether so many bytes can be a path: fours, and no more than a path may have.
fn is_path(length: usize) -> bool
    ensures { result ≡ is_path length }
{
    length % 4 == 0 && length <= BYTES_MAX
}

// The check of a path's bytes before they are read. What it passes is no longer than an array of
// ENTRIES_MAX coordinates.
pub fn bytes_check(length: usize) -> Verdict
    ensures { result ≡ unless (is_path length) path }
{
    if is_path(length) {
        return Verdict::Passed;
    }
    Verdict::Refused(limits::BAD_PATH, 0)
}
