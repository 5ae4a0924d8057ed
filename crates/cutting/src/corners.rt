// The corners of the lower right quarter, one after the other from the bottom.
ghost use Rattle.std.specs.Prelude.{◌≡◌, []};
ghost use Rattle.setting.specs.Setting.{Taken};
ghost use Rattle.quarter.specs.Cutting.{first, quarter};
ghost use Rattle.quarter.specs.Answer.{quarter_of};
ghost use Rattle.cutting.specs.Held.{state};

use crate::Work;
use crate::cut::{amount, step};
use crate::size::{height, width};
use limits::QUARTER_MAX;
use quarter::{Edge, Quarter};
use setting::Setting;

// The start: the lower right corner of the rectangle, between its bottom and its right side.
fn begin(s: Setting) -> Work
    requires { Taken s }
    ensures start { state result [] ≡ first s }
    ensures upright { result.more ≡ 1 }
{
    let dx = width(s);
    let dy = height(s);
    let upright = Edge {
        u: 0,
        v: 1,
        c: dx,
        l1: dy,
        l2: dy,
    };
    Work {
        x: dx,
        y: dy,
        before: Edge {
            u: 1,
            v: 0,
            c: dy,
            l1: dx,
            l2: dx,
        },
        more: 1,
        new: upright,
        last: upright,
    }
}

pub fn none() -> Quarter
    ensures { result ≡ quarter_of [] }
{
    Quarter {
        count: 0,
        x: [0; QUARTER_MAX],
        y: [0; QUARTER_MAX],
    }
}

// The stack of edges never holds more (quarter's proofs/Depth), and its places are one more, so that
// one lies before `top`.
const DEEPEST: usize = 8;

const STACK: usize = DEEPEST + 1;

// The rounds, until no edge is left after the corner. The edges after it are a stack from `top` to
// the array's end; what lies before `top` does not count, so that `new` may be stored there always,
// and the array begins as zeros, which are cleared faster than an edge is repeated.
// A corner that is not cut is put out, its y upwards; it is stored here, so that no function hands
// on all places of the quarter.
pub fn quarter(s: Setting) -> Quarter
    requires { Taken s }
    ensures { result ≡ quarter_of (quarter s) }
{
    let mut t = begin(s);
    let upright = t.last;
    let mut after = [Edge {
        u: 0,
        v: 0,
        c: 0,
        l1: 0,
        l2: 0,
    }; STACK];
    after[DEEPEST] = upright;
    let mut top = DEEPEST;
    let mut q = none();
    while top < STACK {
        let r = after[top];
        let d = amount(s, t.before, r);
        if d == 0 {
            let n = q.count;
            q.x[n] = t.x as i8;
            q.y[n] = -(t.y as i8);
            q.count = n + 1;
        }
        t = step(s, t, r, d);
        let last = t.last;
        let new = t.new;
        after[top] = last;
        after[top - 1] = new;
        top = top + 1 - t.more;
    }
    q
}
