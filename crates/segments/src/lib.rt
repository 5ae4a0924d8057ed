// The segments of a path by its entries: how many there are, and where each of them ends.
#![tactic(auto)]

ghost use Rattle.std.specs.Prelude.{◌≡◌, ◌<◌, length};
ghost use Rattle.stroke.specs.Sweep.{segments, path_points};
ghost use Rattle.segments.specs.Ends.{EndsAt};

// One for each point after the first, and one for a path of one point.
pub fn count(path: &[i32]) -> usize
    ensures { result ≡ length (segments (path_points path.now)) }
{
    let points = path.len() / 2;
    if points <= 1 {
        return points;
    }
    points - 1
}

// Where the end of segment k stands in the path: after its start, or, where the path is one point,
// there. 0 where the path has no such segment.
pub fn end_of(path: &[i32], k: usize) -> usize
    ensures { k < length (segments (path_points path.now)) → EndsAt path.now k result }
{
    if path.len() / 2 <= k {
        return 0;
    }
    let from = 2 * k;
    if from + 3 < path.len() {
        return from + 2;
    }
    from
}
