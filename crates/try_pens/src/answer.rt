// The bytes of an answer: at most two for the refusal and the number of corners, and two to a
// corner.
ghost use Rattle.std.specs.Prelude.{◌≡◌, ◌+◌, ◌<◌, length, take, set};
ghost use Rattle.io.specs.Counts.{IsPrefixLen};
ghost use Rattle.wire.specs.Write.{byte_of};
ghost use Rattle.try_pens.specs.Answer.{Encodable, answer_max, answer};

use pen::Built;

pub const ANSWER_MAX: usize = 2 * limits::PEN_MAX + 2;

// Stores the two bytes of a corner.
fn put(out: &mut [u8; ANSWER_MAX], at: usize, x: i8, y: i8)
    requires { at + 1 < answer_max }
    ensures { out.new ≡ set (set out.old at (byte_of x)) (at + 1) (byte_of y) }
{
    out[at] = wire::byte(x);
    out[at + 1] = wire::byte(y);
}

// Writes an answer to the start of out, and answers how many bytes it has.
pub fn encode(b: Built, out: &mut [u8; ANSWER_MAX]) -> usize
    requires fits { Encodable b }
    requires room { length out.old ≡ answer_max }
    ensures count { IsPrefixLen result out.new }
    ensures bytes { take result out.new ≡ answer b }
{
    let Built { refusal, pen } = b;
    out[0] = refusal as u8;
    out[1] = pen.count as u8;
    for i in 0..pen.count {
        put(out, 2 * i + 2, pen.x[i], pen.y[i]);
    }
    2 * pen.count + 2
}
