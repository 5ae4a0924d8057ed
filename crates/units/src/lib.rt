// From nanometres to units (document 02, W4).
#![tactic(auto)]

ghost use Rattle.std.specs.Prelude.{◌≡◌};
ghost use Rattle.units.specs.Units.{is_unit, is_nine, in_units};

// "One unit of ours is N nanometres, N lent, from 1 to 1,000,000"
pub const UNIT_MAX: u64 = 1000000;

// The greatest number of nine digits.
const NINE_DIGITS: i64 = 999999999;

// Whether a unit can be so many nanometres.
pub fn is_unit(unit: u64) -> bool
    ensures { result ≡ is_unit unit }
{
    limits::within(unit, 1, UNIT_MAX)
}

// n nanometres in units, a half going up; 0 where n has more than nine digits or a unit is no unit.
pub fn in_units(n: i64, unit: u64) -> i32
    ensures { result ≡ in_units n unit }
{
    if !is_nine(n) {
        return 0;
    }
    if !is_unit(unit) {
        return 0;
    }
    let size = unit as i64;
    integers::floor_div(2 * n + size, 2 * size) as i32
}

fn is_nine(n: i64) -> bool
    ensures { result ≡ is_nine n }
{
    -NINE_DIGITS <= n && n <= NINE_DIGITS
}
