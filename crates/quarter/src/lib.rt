// The lower right quarter of a setting's pen: document 01, "Building the pen", as definitions
// (specs/) and theorems on them (proofs/). No function stands here: the crate cutting computes what
// specs/Answer.antt defines.
#![tactic(auto)]

use limits::QUARTER_MAX;

// An edge of the quarter with direction (u, v) on v*x - u*y = c. Its retained point is l1
// directions after its start and l2 before its end.
#[derive(Clone, Copy)]
pub struct Edge {
    pub u: u64,
    pub v: u64,
    pub c: u64,
    pub l1: u64,
    pub l2: u64,
}

// What is left of the interval in which the near root is sought, both ends included.
#[derive(Clone, Copy)]
pub struct Interval {
    pub low: u64,
    pub high: u64,
}

// The corners of the lower right quarter from the bottom, in half pixels, y upwards.
#[derive(Clone, Copy)]
pub struct Quarter {
    pub count: usize,
    pub x: [i8; QUARTER_MAX],
    pub y: [i8; QUARTER_MAX],
}
