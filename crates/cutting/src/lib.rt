// The corners of a setting's quarter, cut by document 01's steps.
//
// The way of the data: the setting is checked, the pen's size gives the first corner (size), the
// corner nearest the bottom is cut by steps 1 to 5 (cut, which asks for near roots: root) until it
// is put out, and so on until no corner is left (corners). What each function promises is cited from
// the crate quarter; what the structs hold on the way, from specs/.
#![tactic(auto)]

ghost use Rattle.std.specs.Prelude.{◌≡◌};
ghost use Rattle.quarter.specs.Answer.{cornered};

use quarter::{Edge, Quarter};
use setting::{Checked, Setting};

mod corners;
mod cut;
mod root;
mod size;

// The current corner, y measured downwards; the edge before it; and what takes the place of the edge
// that came after the corner before: `more` edges (0 to 2), of which the second is `last` and the
// first, where there are two, `new`. The stack of all edges to come is not in here, so that no step
// copies it.
#[derive(Clone, Copy)]
pub struct Work {
    pub x: u64,
    pub y: u64,
    pub before: Edge,
    pub more: usize,
    pub new: Edge,
    pub last: Edge,
}

// The quarter of a setting; it has no corners where the setting is outside the limits.
pub fn build(s: Setting) -> Quarter
    ensures { result ≡ cornered s }
{
    let Checked::Taken(t) = setting::check(s.w, s.p, s.q) else {
        return corners::none();
    };
    corners::quarter(t)
}
