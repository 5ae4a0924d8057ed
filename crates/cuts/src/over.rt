// A row that several segments touch: the cut of each is laid over the bytes of the row, and beside
// them stand the bounds of the cuts. The cost is one step for each cut and for each byte that it
// has, in whatever order the cuts come.
ghost use Rattle.std.specs.Prelude.{◌≡◌};
ghost use Rattle.limits.specs.Sizes.{raster_max, Size};
ghost use Rattle.bits.specs.Bits.{packed, laid_over, blackened};
ghost use Rattle.cuts.specs.Cuts.{cuts_of, Below, in_cut, black_cut, wider, bounds_of, unbounded};

use crate::Bounds;
use crate::cut::{Cut, cut_at};

// One cut more over the bytes.
fn lay_cut(bytes: &mut [u8], cut: Option<Cut>)
    requires { Below raster_max cut }
    ensures { bytes.new ≡ blackened (λ x. in_cut x cut) bytes.old }
{
    if let Some(c) = cut {
        bits::lay_span(bytes, c.left, c.right + 1);
    }
}

// One cut more between the bounds.
fn widen(b: Bounds, cut: Option<Cut>) -> Bounds
    requires { Below raster_max cut }
    ensures { result ≡ wider b cut }
{
    let Some(c) = cut else {
        return b;
    };
    let end = c.right + 1;
    if 0 < b.end {
        return Bounds {
            first: b.first.min(c.left),
            end: b.end.max(end),
        };
    }
    Bounds { first: c.left, end }
}

// The cuts of all segments over the bytes, and between the bounds.
pub fn lay_cuts<'a>(
    bytes: &mut [u8],
    xs: &'a [i8],
    ys: &'a [i8],
    count: usize,
    path: &[i32],
    columns: usize,
    row: u64,
) -> Bounds
    requires { Size columns }
    ensures laid { bytes.new
        ≡ laid_over bytes.old (packed (black_cut (cuts_of xs.now ys.now count path.now columns row)) columns) }
    ensures bounds { result ≡ bounds_of (cuts_of xs.now ys.now count path.now columns row) unbounded }
{
    let mut b = Bounds { first: 0, end: 0 };
    for k in 0..segments::count(path) {
        let cut = cut_at(xs, ys, count, path, k, columns, row);
        lay_cut(bytes, cut);
        b = widen(b, cut);
    }
    b
}
