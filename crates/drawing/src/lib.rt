// The film of a drawing, as definitions (specs/) and theorems on them (proofs/): several strokes, each
// with an aperture, in rows as a raw PBM file has them. No function stands here: the crate film_band
// computes what specs/Film.antt defines.
#![tactic(auto)]

// Whether a row call takes every stroke; or the index of the first that it refuses, with document
// 01's number and place.
#[derive(Drop)]
pub enum StrokeVerdict {
    AllTaken,
    Stroke(usize, u64, u64),
}
