// The two flanks of a segment's sweep, carried from row to row, upwards.
//
// Source document 001, figures 13 and 14. From below to above a flank is the pen's edges at the
// lower end, the segment itself at the corner of the pen that lies furthest out (its tangent), and
// the pen's edges at the upper end. A row inside an edge is two sums and a test (crate edge); at a
// corner of the outline the next edge is set up (turn), where a walk up the side of the pen goes on
// from the corner that it had come to (walk). Every corner is passed once.
//
// No function asks anything of what it is given: the answers are those of specs/Flanks.antt for
// whatever the numbers are.
#![tactic(auto)]

ghost use Rattle.std.specs.Prelude.{◌≡◌, true, false, ◌^◌, pos, ◌*ℤ◌};
ghost use Rattle.integers.specs.Bound.{Abs};
ghost use Rattle.flanks.specs.Flanks.{ordered, held_of, idle, nowhere, begun, inside_of, climbed, risen, count_to, cut_at};

use edge::Edge;
use ties::below;

mod turn;
mod walk;

// The lower end of a segment, and the upper one, in sixteenths of a pixel.
#[derive(Clone, Copy)]
pub struct Ends {
    pub lx: i32,
    pub ly: i32,
    pub ux: i32,
    pub uy: i32,
}

// The edge that the row meets, and the height up to which it does; the corner of the pen's side that
// the walk has come to, and the place of the corner that the segment runs along.
#[derive(Clone, Copy)]
pub struct Flank {
    pub edge: Edge,
    pub top: i64,
    pub corner: usize,
    pub tangent: usize,
}

// The sweep reaches from the height `low` to the height `high`.
#[derive(Clone, Copy)]
pub struct Flanks {
    pub ends: Ends,
    pub low: i64,
    pub high: i64,
    pub left: Flank,
    pub right: Flank,
}

// The columns of a row from `first` on and before `end`; none where `end` is not greater.
#[derive(Clone, Copy)]
pub struct Cut {
    pub first: u16,
    pub end: u16,
}

fn ordered(ax: i32, ay: i32, bx: i32, by: i32) -> Ends
    ensures { result ≡ ordered ax ay bx by }
{
    if ay <= by {
        return Ends {
            lx: ax,
            ly: ay,
            ux: bx,
            uy: by,
        };
    }
    Ends {
        lx: bx,
        ly: by,
        ux: ax,
        uy: ay,
    }
}

// Corners that the arrays do not have are none.
fn held<'a>(count: usize, xs: &'a [i8], ys: &'a [i8]) -> usize
    ensures { result ≡ held_of count xs.now ys.now }
{
    count.min(xs.len().min(ys.len()))
}

fn idle(low: i64, tangent: usize) -> Flank
    ensures { result ≡ idle low tangent }
{
    Flank {
        edge: edge::nowhere(),
        top: low,
        corner: 0,
        tangent,
    }
}

// The flanks of no segment.
pub fn nowhere() -> Flanks
    ensures { result ≡ nowhere }
{
    Flanks {
        ends: Ends {
            lx: 0,
            ly: 0,
            ux: 0,
            uy: 0,
        },
        low: 0,
        high: 0,
        left: idle(0, 0),
        right: idle(0, 0),
    }
}

// The flanks of the segment from A to B before their first row, for the pen whose corners are the
// first `count` places of xs and ys, in half pixels, counterclockwise from a lowest one.
pub fn begin<'a>(
    xs: &'a [i8],
    ys: &'a [i8],
    count: usize,
    ax: i32,
    ay: i32,
    bx: i32,
    by: i32,
) -> Flanks
    ensures { result ≡ begun count xs.now ys.now ax ay bx by }
{
    let n = held(count, xs, ys);
    let ends = ordered(ax, ay, bx, by);
    let lx = i64::from(ends.lx);
    let ly = i64::from(ends.ly);
    let ux = i64::from(ends.ux);
    let uy = i64::from(ends.uy);
    let depth = 8 * walk::at(ys, 0);
    let low = ly + depth;
    let high = uy - depth;
    let tangents = walk::tangents(xs, ys, n, ux - lx, uy - ly);
    Flanks {
        ends,
        low,
        high,
        left: idle(low, tangents.left),
        right: idle(low, tangents.right),
    }
}

// The height of a row, in sixteenths of a pixel: 16 to a row, by a shift, so that no row costs a
// product.
fn height(row: u16) -> i64
    ensures same { result ≡ pos 16 *ℤ pos row }
    ensures small { Abs result (2 ^ 20) }
{
    (u64::from(row) << 4) as i64
}

// Whether a row meets the sweep.
fn inside(low: i64, high: i64, row: u16) -> bool
    ensures { result ≡ inside_of low high row }
{
    let h = height(row);
    !below(h, low) && below(h, high)
}

// Both flanks to the height h: each on the same edge, or on the next one.
fn turning<'a>(f: Flanks, xs: &'a [i8], ys: &'a [i8], count: usize, h: i64) -> Flanks
    requires { Abs h (2 ^ 32) }
    ensures { let n = held_of count xs.now ys.now in
        result ≡ record {
          ends = f.ends;
          low = f.low;
          high = f.high;
          left = climbed f.left xs.now ys.now n true f.ends h;
          right = climbed f.right xs.now ys.now n false f.ends h;
        } }
{
    let n = held(count, xs, ys);
    let left = turn::climb(f.left, xs, ys, n, true, f.ends, h);
    let right = turn::climb(f.right, xs, ys, n, false, f.ends, h);
    Flanks { left, right, ..f }
}

// The flanks in the given row: their first, or one row up from the last. They wait where it lies
// below the sweep. In most rows both stay on their edges, and that case alone is small enough to be
// inlined where rows are looped over.
pub fn rise<'a>(f: Flanks, xs: &'a [i8], ys: &'a [i8], count: usize, row: u16) -> Flanks
    ensures { result ≡ risen count xs.now ys.now f row }
{
    if !inside(f.low, f.high, row) {
        return f;
    }
    let h = height(row);
    if below(h, f.left.top) && below(h, f.right.top) {
        return Flanks {
            left: turn::stay(f.left),
            right: turn::stay(f.right),
            ..f
        };
    }
    turning(f, xs, ys, count, h)
}

// How many of the raster's columns lie up to column z.
pub fn count_to(columns: u16, z: i64) -> u16
    ensures { result ≡ count_to columns z }
{
    if z < 0 {
        return 0;
    }
    if z < i64::from(columns) {
        return (z + 1) as u16;
    }
    columns
}

// The columns between the flanks that the raster has, in the row in which they stand.
pub fn between(f: Flanks, row: u16, columns: u16) -> Cut
    ensures { result ≡ cut_at f row columns }
{
    if !inside(f.low, f.high, row) {
        return Cut { first: 0, end: 0 };
    }
    Cut {
        first: count_to(columns, f.left.edge.column),
        end: count_to(columns, f.right.edge.column),
    }
}
