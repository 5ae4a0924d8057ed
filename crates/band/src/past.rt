// Which rows lie below a height, and which past it.
ghost use Rattle.std.specs.Prelude.{◌≤◌, ◌^◌};
ghost use Rattle.integers.specs.Bound.{Abs};
ghost use Rattle.band.specs.Rows.{FirstPast, Past};

use ties::below;

// The first row that does not lie below the height y, of all rows, the negative ones too: the row at
// y or the last one under it, or the next.
fn first_past(y: i64) -> i64
    requires { Abs y (2 ^ 24) }
    ensures first { FirstPast y result }
    ensures small { Abs result (2 ^ 25) }
{
    let row = integers::floor_div(y, 16);
    if below(16 * row, y) {
        return row + 1;
    }
    row
}

// The first of the rows from `from` on and before `to` that does not lie below the height y; `to`
// where all do.
pub fn rows_past(y: i64, from: u16, to: u16) -> u16
    requires small { Abs y (2 ^ 24) }
    requires ordered { from ≤ to }
    ensures { Past y from to result }
{
    let row = first_past(y);
    if row <= from as i64 {
        return from;
    }
    if row < to as i64 {
        return row as u16;
    }
    to
}
