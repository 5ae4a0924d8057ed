// An edge of an outline, carried from row to row.
//
// Source document 001, figure 14: where the edge meets the row is kept as a whole column and a
// remainder, and one row up is two sums and a test. An edge costs two divisions, a steep one only
// one, and a row none.
#![tactic(auto)]

ghost use Rattle.std.specs.Prelude.{◌≡◌, ◌&&◌};
ghost use Rattle.integers.specs.Floor.{floor_div};
ghost use Rattle.edge.specs.Edge.{nowhere, is_small, fair, near, raised, placed};

// The edge meets the row at column + rest / by pixels, and each row up adds step + more / by.
#[derive(Clone, Copy)]
pub struct Edge {
    pub column: i64,
    pub rest: i64,
    pub step: i64,
    pub more: i64,
    pub by: i64,
}

// No edge.
pub fn nowhere() -> Edge
    ensures { result ≡ nowhere }
{
    Edge {
        column: 0,
        rest: 0,
        step: 0,
        more: 0,
        by: 0,
    }
}

// Whether z is so small that the sums of two fit 64 bits.
fn is_small(z: i64) -> bool
    ensures { result ≡ is_small z }
{
    -1099511627776 <= z && z <= 1099511627776
}

// Whether all numbers of an edge are.
#[tactic(auto, unfolding(crate::specs::Edge::fair))]
fn fair(e: Edge) -> bool
    ensures { result ≡ fair e }
{
    is_small(e.column)
        && (is_small(e.rest) && (is_small(e.step) && (is_small(e.more) && is_small(e.by))))
}

// One row up.
pub fn raise(e: Edge) -> Edge
    ensures { result ≡ raised e }
{
    if !fair(e) {
        return e;
    }
    let rest = e.rest + e.more;
    let column = e.column + e.step;
    if rest < e.by {
        return Edge { column, rest, ..e };
    }
    Edge {
        column: column + 1,
        rest: rest - e.by,
        ..e
    }
}

// Whether z can be a coordinate of an outline's corner, or a row's height.
fn near(z: i64) -> bool
    ensures { result ≡ near z }
{
    -263168 <= z && z <= 263168
}

// Whether two corners and a height are within reach.
fn all_near(px: i64, py: i64, qx: i64, qy: i64, h: i64) -> bool
    ensures { result ≡ (near px && (near py && (near qx && (near qy && near h)))) }
{
    near(px) && (near(py) && (near(qx) && (near(qy) && near(h))))
}

// The whole columns by which an edge that goes dx across and dy up moves in a row. An edge that is
// steep, or upright, moves by less than one: by 0 or, to the left, by -1, with no division.
fn slope(dx: i64, dy: i64) -> i64
    ensures { result ≡ floor_div dx dy }
{
    if dx < 0 && -1 - dx < dy {
        return -1;
    }
    if 0 <= dx && dx < dy {
        return 0;
    }
    integers::floor_div(dx, dy)
}

// The edge from P up to Q, in the row at the height h. The only divisions: at most two for each edge.
pub fn place(px: i64, py: i64, qx: i64, qy: i64, h: i64) -> Edge
    ensures { result ≡ placed px py qx qy h }
{
    if !all_near(px, py, qx, qy, h) {
        return nowhere();
    }
    let dx = qx - px;
    let dy = qy - py;
    let by = 16 * dy;
    let num = px * dy + (h - py) * dx;
    let column = integers::floor_div(num, by);
    let step = slope(dx, dy);
    Edge {
        column,
        rest: num - by * column,
        step,
        more: 16 * (dx - dy * step),
        by,
    }
}
