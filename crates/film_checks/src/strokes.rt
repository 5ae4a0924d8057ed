// One stroke of a drawing: where its entries stand, and what is checked of it.
ghost use Rattle.std.specs.Prelude.{◌≡◌, ◌+◌, ◌<◌, ◌^◌, get_or};
ghost use Rattle.drawing.specs.Strokes.{path_of};
ghost use Rattle.film_checks.specs.Code.{Spans, held_verdict};

use limits::Verdict;
use setting_list::is_held;

// Where a stroke's entries stand, from `first` on and before `end`.
#[derive(Drop)]
pub struct Span {
    pub first: usize,
    pub end: usize,
}

fn start(starts: &[usize], k: usize) -> usize
    ensures { result ≡ get_or starts.now k 0 }
{
    starts.get(k).copied().unwrap_or(0)
}

// Where the entries of stroke k stand. It has none where its start and the next one are not in order
// within the list.
pub fn span_of(starts: &[usize], entries: &[i32], k: usize) -> Span
    requires { k + 1 < 2 ^ 64 }
    ensures { Spans starts.now entries.now k result.first result.end }
{
    let first = start(starts, k);
    let end = start(starts, k + 1);
    if first <= end && end <= entries.len() {
        return Span { first, end };
    }
    Span { first: 0, end: 0 }
}

// The entries of stroke k.
pub fn path_of<'a>(starts: &[usize], entries: &'a [i32], k: usize) -> &'a [i32]
    requires { k + 1 < 2 ^ 64 }
    ensures { result.now ≡ path_of starts.now entries.now k }
{
    let Span { first, end } = span_of(starts, entries, k);
    &entries[first..end]
}

// What a row call checks of a stroke, asked for row 0, in its order. So many apertures are held.
pub fn stroke_check(held: u64, number: u64, path: &[i32], columns: u64, rows: u64) -> Verdict
    ensures { result ≡ held_verdict held number path.now columns rows }
{
    if !is_held(held, number) {
        return Verdict::Refused(limits::NO_APERTURE, 0);
    }
    checks::check(path, columns, rows, 0)
}
