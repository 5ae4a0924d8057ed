// What the sides of a sweep leave of a row: the least and the greatest column, kept as fractions,
// so that a side costs two products and no division. Heights count from the row, so that it is row 0.
ghost use Rattle.std.specs.Prelude.{◌≡◌, Some, pos, ◌+ℤ◌};
ghost use Rattle.stroke.specs.Extent.{upper, lower, narrow, span_of};
ghost use Rattle.extent.specs.Answer.{answered};
ghost use Rattle.extent.specs.Held.{last_to, at_most, at_least, left, flat_leaves, start, Fair, Limiting, FairLimit, Steady};

use crate::Extent;

// num / by, in sixteenths of a pixel, for a positive `by`.
#[derive(Clone, Copy)]
pub struct Fraction {
    pub num: i64,
    pub by: i64,
}

// Whether a flat side leaves any column; the columns lie past `least` and reach up to `most`, where
// there are such limits.
#[derive(Clone, Copy)]
pub struct Limits {
    pub some: bool,
    pub least: Option<Fraction>,
    pub most: Option<Fraction>,
}

// Before the first side: no limits.
pub fn all() -> Limits
    ensures answer { left result ≡ start }
    ensures steady { Steady result }
{
    Limits {
        some: true,
        least: None,
        most: None,
    }
}

// The lesser of f and a new limit. Both divisors are positive, so that the products compare as the
// fractions do.
fn lesser(f: Option<Fraction>, new: Fraction) -> Fraction
    requires old { FairLimit f }
    requires new { Limiting new }
    ensures answer { at_most (Some result) ≡ upper (at_most f) (last_to new.num new.by) }
    ensures fair { Limiting result }
{
    match f {
        Some(old) if old.num * new.by <= new.num * old.by => old,
        _ => new,
    }
}

// The greater of f and a new limit.
fn greater(f: Option<Fraction>, new: Fraction) -> Fraction
    requires old { FairLimit f }
    requires new { Limiting new }
    ensures answer { at_least (Some result) ≡ lower (at_least f) (last_to new.num new.by +ℤ pos 1) }
    ensures fair { Limiting result }
{
    match f {
        Some(old) if new.num * old.by <= old.num * new.by => old,
        _ => new,
    }
}

// Whether a flat side leaves the row: it has room there, or none and is kept.
fn leaves(b: i64, room: i64) -> bool
    ensures { result ≡ flat_leaves b room }
{
    if ties::keeps_flat(b) {
        0 <= room
    } else {
        0 < room
    }
}

// One side more, a x + b y <= room: in row 0 its room is what a * 16i may reach at most.
pub fn narrow(s: Limits, a: i64, b: i64, room: i64) -> Limits
    requires steady { Steady s }
    requires side { Fair (record { num = room; by = a }) }
    ensures answer { left result ≡ narrow (pos 0) (record { a = a; b = b; c = room }) (left s) }
    ensures steady { Steady result }
{
    if 0 < a {
        let most = lesser(s.most, Fraction { num: room, by: a });
        return Limits {
            most: Some(most),
            ..s
        };
    }
    if a < 0 {
        let least = greater(s.least, Fraction { num: -room, by: -a });
        return Limits {
            least: Some(least),
            ..s
        };
    }
    Limits {
        some: s.some && leaves(b, room),
        ..s
    }
}

// The columns that are left. The only divisions: one for each end.
pub fn columns(s: Limits) -> Option<Extent>
    requires { Steady s }
    ensures { result ≡ answered (span_of (left s)) }
{
    if !s.some {
        return None;
    }
    let least = s.least?;
    let most = s.most?;
    let first = integers::floor_div(least.num, 16 * least.by) + 1;
    let last = integers::floor_div(most.num, 16 * most.by);
    if first <= last {
        Some(Extent { first, last })
    } else {
        None
    }
}
