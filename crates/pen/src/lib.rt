// The pen of a setting: the convex polygon of document 01, "Building the pen".
//
// The way of the data: a setting is checked (crate setting), the corners of its lower right quarter
// are cut one after the other (crate cutting), and the quarter is mirrored into the whole polygon
// (polygon). What each function promises is cited from specs/.
#![tactic(auto)]

ghost use Rattle.std.specs.Prelude.{◌≡◌};
ghost use Rattle.pen.specs.Answer.{built};

use limits::{BAD_SETTING, DONE, PEN_MAX};
use setting::Checked;

mod polygon;

// The corners of the whole polygon, counterclockwise from the bottom, in half pixels, y upwards.
#[derive(Clone, Copy)]
pub struct Pen {
    pub count: usize,
    pub x: [i8; PEN_MAX],
    pub y: [i8; PEN_MAX],
}

// Document 01's refusal number, and the pen, which has no corners on a refusal.
#[derive(Clone, Copy)]
pub struct Built {
    pub refusal: u64,
    pub pen: Pen,
}

// The pen of a width and an aspect, or refusal 1.
pub fn build(w: u64, p: u64, q: u64) -> Built
    ensures { result ≡ built (record { w = w; p = p; q = q }) }
{
    let Checked::Taken(s) = setting::check(w, p, q) else {
        return Built {
            refusal: BAD_SETTING,
            pen: polygon::none(),
        };
    };
    let lower_right = cutting::build(s);
    Built {
        refusal: DONE,
        pen: polygon::mirrored(lower_right),
    }
}
