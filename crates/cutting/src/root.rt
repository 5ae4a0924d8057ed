// The near root of a direction, by halving the interval.
ghost use Rattle.std.specs.Prelude.{◌≡◌, ◌≤◌, ◌<◌, min, max};
ghost use Rattle.setting.specs.Setting.{Taken};
ghost use Rattle.quarter.specs.NearRoot.{norm, near_root, lower};
ghost use Rattle.quarter.specs.Moment.{Summed};
ghost use Rattle.quarter.specs.Tries.{halved};

use quarter::Interval;
use setting::Setting;

// p²v² + q²u²; with p and q at most 16 that is at most 2 * 16² * 64².
pub fn norm(s: Setting, u: u64, v: u64) -> u64
    requires setting { Taken s }
    requires summed { Summed u v }
    ensures norm { result ≡ norm s u v }
    ensures small { result ≤ 2097152 }
{
    s.p * s.p * (v * v) + s.q * s.q * (u * u)
}

// One try: the near root is at the middle value or after it where the square there is low enough,
// and otherwise before it.
fn halved(s: Setting, square: u64, i: Interval) -> Interval
    requires setting { Taken s }
    requires left { i.low < i.high }
    requires small { i.high ≤ 8192 }
    ensures { result ≡ halved (lower s) square i }
{
    let middle = (i.low + i.high + 1) / 2;
    let odd = 2 * middle - 1;
    if 64 * (s.q * s.q) * (odd * odd) <= square {
        return Interval {
            low: middle,
            high: i.high,
        };
    }
    Interval {
        low: i.low,
        high: middle - 1,
    }
}

// The near root of (u, v), brought into low..high: the interval is halved until one value is left.
// Document 02 (W3) has at most 16 middle values tried: `halved`, which tries one, is called here
// only. An edge's offset is at most 4096, so what is sought for two of them is at most 8192, and
// for that 14 are enough.
pub fn near_root(s: Setting, u: u64, v: u64, low: u64, high: u64) -> u64
    requires setting { Taken s }
    requires summed { Summed u v }
    requires ordered { low ≤ high }
    requires small { high ≤ 8192 }
    ensures { result ≡ max low (min high (near_root s u v)) }
{
    let square = s.w * s.w * norm(s, u, v);
    let mut i = Interval { low, high };
    let mut tries: u64 = 0;
    while tries < 16 && i.low < i.high {
        i = halved(s, square, i);
        tries += 1;
    }
    i.low
}
