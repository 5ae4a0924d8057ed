// What a path reaches: how low its points lie, and how high. A stroke lies between these heights,
// with half the pen's height to each.
#![tactic(auto)]

ghost use Rattle.std.specs.Prelude.{◌≡◌};
ghost use Rattle.reach.specs.Reach.{least_y, greatest_y};

// Where the first y of a path stands: its entries are x, y, x, y, ..
const FIRST_Y: usize = 1;

// The least y of a path, and the greatest one. Of a path without points they are past all others.
pub fn least_y(path: &[i32]) -> i64
    ensures { result ≡ least_y path.now }
{
    let mut least = i64::from(limits::COORDINATE_MAX);
    for k in 0..path.len() / 2 {
        least = least.min(i64::from(path[2 * k + FIRST_Y]));
    }
    least
}

pub fn greatest_y(path: &[i32]) -> i64
    ensures { result ≡ greatest_y path.now }
{
    let mut greatest = i64::from(limits::COORDINATE_MIN);
    for k in 0..path.len() / 2 {
        greatest = greatest.max(i64::from(path[2 * k + FIRST_Y]));
    }
    greatest
}
