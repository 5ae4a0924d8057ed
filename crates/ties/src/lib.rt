// Which sides of a sweep are kept: what happens where a pixel's centre lies exactly on a side.
#![tactic(auto)]

ghost use Rattle.std.specs.Prelude.{◌≡◌, pos};
ghost use Rattle.ties.specs.Kept.{kept};
ghost use Rattle.ties.specs.Below.{below};

// Whether a flat side with the normal (0, b) is kept: one that points straight up is. The rule for
// flat sides stands here and nowhere else in the code.
#[tactic(auto, unfolding(crate::specs::Kept::kept))]
pub fn keeps_flat(b: i64) -> bool
    ensures { result ≡ kept (pos 0) b }
{
    0 < b
}

// Whether a row at the height h meets an edge up to the height y: the one at y itself belongs to
// the edge below it or to the one above, as flat sides are kept.
#[tactic(auto, unfolding(crate::specs::Kept::kept, crate::specs::Below::below))]
pub fn below(h: i64, y: i64) -> bool
    ensures { result ≡ below h y }
{
    if keeps_flat(1) { h <= y } else { h < y }
}
