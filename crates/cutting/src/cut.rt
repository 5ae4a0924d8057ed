// Steps 1 to 5 of document 01 at one corner: how much is cut off it, and what that leaves.
ghost use Rattle.std.specs.Prelude.{◌≡◌, ◌+◌, ◌-◌, ◌*◌, ◌≤◌};
ghost use Rattle.setting.specs.Setting.{Taken};
ghost use Rattle.quarter.specs.Cutting.{amount, retained, retained_at, cut_edge, short_l, short_r, cut_both, cut_left, cut_right, cut_new, cut, passed};
ghost use Rattle.quarter.specs.Moment.{Small, Summed};
ghost use Rattle.cutting.specs.Held.{Room, Leads, Stepped};

use crate::Work;
use crate::root::{near_root, norm};
use integers::min_u64;
use quarter::Edge;
use setting::Setting;

// a - b, and 0 where that is negative.
pub fn minus(a: u64, b: u64) -> u64
    ensures { result ≡ a - b }
{
    if b < a { a - b } else { 0 }
}

// Steps 1 and 2: by how much the corner between l and r is cut; 0 where it is put out.
pub fn amount(s: Setting, l: Edge, r: Edge) -> u64
    requires setting { Taken s }
    requires left { Small l }
    requires right { Small r }
    ensures { result ≡ amount s l r }
{
    if 1 + l.v * r.u < l.u * r.v {
        return 0;
    }
    let shorter = min_u64(l.l2, r.l1);
    let whole = l.c + r.c;
    // A root further down than the shorter count allows, or past the offsets, is as good as theirs.
    let root = near_root(s, l.u + r.u, l.v + r.v, minus(whole, shorter), whole);
    whole - root
}

// Step 4: how far after its start, at the abscissa x, the retained point of a new edge lies, which
// has the direction (u, v) and the offset c and is d directions long.
fn retained(s: Setting, u: u64, v: u64, c: u64, x: u64, d: u64) -> u64
    requires setting { Taken s }
    requires rightward { 1 ≤ u }
    requires summed { Summed u v }
    requires offset { c ≤ 8192 }
    requires across { x ≤ 32 }
    ensures { result ≡ retained s u v c x d }
{
    let n = norm(s, u, v);
    let above = minus(s.p * s.p * v * c, x * n);
    min_u64(d, (2 * above + u * n) / (2 * (u * n)))
}

// Step 3: the edge of the summed direction that cuts d off the corner between l and r.
fn edge_of(l: Edge, r: Edge, d: u64, l1: u64, l2: u64) -> Edge
    requires left { Small l }
    requires right { Small r }
    requires offset { d ≤ l.c + r.c }
    ensures { result ≡ cut_edge l r d l1 l2 }
{
    Edge {
        u: l.u + r.u,
        v: l.v + r.v,
        c: l.c + r.c - d,
        l1: l1,
        l2: l2,
    }
}

// Step 3: l, whose end falls by d.
fn shorter_end(l: Edge, d: u64) -> Edge
    requires { d ≤ l.l2 }
    ensures { result ≡ short_l l d }
{
    let mut e = l;
    e.l2 = l.l2 - d;
    e
}

// Step 3: r, whose start falls by d.
fn shorter_start(r: Edge, d: u64) -> Edge
    requires { d ≤ r.l1 }
    ensures { result ≡ short_r r d }
{
    let mut e = r;
    e.l1 = r.l1 - d;
    e
}

// Step 4, where d is all of both edges: the new one takes the place of l, and r goes.
fn cut_both(t: Work, r: Edge, d: u64) -> Work
    requires { Room t r d }
    ensures { Leads result (cut_both t.x t.y d t.before r) }
{
    let l = t.before;
    let mut n = t;
    n.x = t.x + d * r.u;
    n.y = t.y - d * r.v;
    n.before = edge_of(l, r, d, l.l1, l.l2);
    n.more = 0;
    n
}

// Step 4, where d is all of l alone: the new one takes its place.
fn cut_left(t: Work, r: Edge, d: u64) -> Work
    requires { Room t r d }
    ensures { Leads result (cut_left t.x t.y d t.before r) }
{
    let l = t.before;
    let mut n = t;
    n.x = t.x + d * r.u;
    n.y = t.y - d * r.v;
    n.before = edge_of(l, r, d, l.l1, l.l2);
    n.more = 1;
    n.last = shorter_start(r, d);
    n
}

// Step 4, where d is all of r alone: the new one takes its place.
fn cut_right(t: Work, r: Edge, d: u64) -> Work
    requires { Room t r d }
    ensures { Leads result (cut_right t.x t.y d t.before r) }
{
    let l = t.before;
    let mut n = t;
    n.x = t.x - d * l.u;
    n.y = t.y + d * l.v;
    n.before = shorter_end(l, d);
    n.more = 1;
    n.last = edge_of(l, r, d, r.l1, r.l2);
    n
}

// Step 4, where something is left of both: a new edge between them.
fn cut_new(s: Setting, t: Work, r: Edge, d: u64) -> Work
    requires setting { Taken s }
    requires room { Room t r d }
    ensures { Leads result (cut_new t.x t.y d (retained_at s t.x d t.before r) t.before r) }
{
    let l = t.before;
    let x = t.x - d * l.u;
    let mut e = edge_of(l, r, d, 0, d);
    let k = retained(s, e.u, e.v, e.c, x, d);
    e.l1 = k;
    e.l2 = d - k;
    let mut n = t;
    n.x = x;
    n.y = t.y + d * l.v;
    n.before = shorter_end(l, d);
    n.more = 2;
    n.new = e;
    n.last = shorter_start(r, d);
    n
}

// Steps 3 and 4: the corner is cut by d.
fn cut(s: Setting, t: Work, r: Edge, d: u64) -> Work
    requires setting { Taken s }
    requires room { Room t r d }
    ensures { Leads result (cut s t.x t.y d t.before r) }
{
    let l = t.before;
    if d == l.l1 + l.l2 {
        if d == r.l1 + r.l2 {
            return cut_both(t, r, d);
        }
        return cut_left(t, r, d);
    }
    if d == r.l1 + r.l2 {
        return cut_right(t, r, d);
    }
    cut_new(s, t, r, d)
}

// Step 5: the corner is put out; r drops its retained point, and its end is the next corner. (Past
// the last corner there is none, and y is 0.)
fn passed(t: Work, r: Edge) -> Work
    requires right { Small r }
    requires across { t.x ≤ 32 }
    ensures { Leads result (passed t.x t.y r) }
{
    let size = r.l1 + r.l2;
    let mut n = t;
    n.x = t.x + size * r.u;
    n.y = minus(t.y, size * r.v);
    let mut e = r;
    e.l1 = 0;
    e.l2 = size;
    n.before = e;
    n.more = 0;
    n
}

// The corner is cut by d, or put out where d is 0.
pub fn step(s: Setting, t: Work, r: Edge, d: u64) -> Work
    requires setting { Taken s }
    requires room { Room t r d }
    ensures { Stepped s t r d result }
{
    if d == 0 {
        return passed(t, r);
    }
    cut(s, t, r, d)
}
