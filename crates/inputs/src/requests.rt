// Requests on standard input, each answered on standard output, as a test tool has them.
ghost use Rattle.std.specs.Prelude.{◌≡◌, ◌≤◌, ◌<◌, ◌*◌, ◌^◌, length, IfOk, OnOk, IfErr, IsOkUnless};
ghost use Rattle.std.specs.Io.KnownBytes.{Consumes, Appends};
ghost use Rattle.wire.specs.Write.{word_bytes, number_bytes};
ghost use Rattle.inputs.specs.declared.requests.Leave.TheVariants.{Unread};
ghost use Rattle.inputs.specs.Stream.{Served, begun, NoHead, NoRest, answer_bytes};

use checks::Answer;
use std::io::{Read, Stderr, Write};
use std::{fmt, io};

// Why a stream of requests is left: it has ended, which is nothing to tell, or cannot be read; it breaks off; an
// answer cannot be written; or a request asks for more than the tool has.
#[derive(Drop)]
pub enum Leave {
    End,
    Unread(io::Error),
    BrokenCommand,
    BrokenPath,
    BrokenRequest,
    Unwritten,
    NoKind,
    LongPath,
    LongRequest,
    LargeRoom,
}

impl From<io::Error> for Leave {
    ghost from_gives = { λ e why. why ≡ Unread e };

    fn from(e: io::Error) -> Leave {
        Leave::Unread(e)
    }
}

// All but the system's message of a read that failed.
impl fmt::Display for Leave {
    fn fmt<W: fmt::Write>(&self, f: &mut fmt::Formatter<W>) -> fmt::Result {
        f.write_str(match self {
            Leave::End => "the stream ends",
            Leave::Unread(_) => "standard input",
            Leave::BrokenCommand => "the stream breaks off in a command",
            Leave::BrokenPath => "the stream breaks off in a path",
            Leave::BrokenRequest => "the stream breaks off in a request",
            Leave::Unwritten => "an answer cannot be written",
            Leave::NoKind => "a command of no kind",
            Leave::LongPath => "a path or a room is too long for the tool",
            Leave::LongRequest => "a request is too long for the tool",
            Leave::LargeRoom => "a room is too large for the tool",
        })
    }
}

// Tells why, in the name of the program.
fn tell_leave(told: Stderr, program: &[u8], input: &[u8], why: Leave) {
    match why {
        Leave::End => (),
        Leave::Unread(e) => tell::fail(told, input, e),
        _ => {
            tell::say(told, program);
            tell::piecewise(told, format_args!("{why}\n"));
        }
    }
}

// Answers requests until no other can follow, and tells why: behind the name of the program, as "try_pens: "; or,
// where a read failed, behind that of its input, as "try_pens: standard input".
// A proved loop has to end, and nothing says that the input does. So the loop counts its turns, up to a
// number that no run uses up.
pub fn serve<F: FnMut() -> Result<(), Leave>>(
    told: Stderr,
    program: &[u8],
    input: &[u8],
    mut one: F,
)
    requires { F.IsAlwaysCallable one }
    ensures { Served F.step u64.MAX one }
{
    for _turn in 0..u64::MAX {
        if let Err(why) = one() {
            return tell_leave(told, program, input, why);
        }
    }
}

// A record of so many bytes. An incomplete one at the end is ignored.
pub fn record<R: Read, const N: usize>(input: &mut R) -> Result<[u8; N], Leave>
    ensures whole { IfOk result (λ bytes. Consumes (R.remaining input.old) (R.remaining input.new) bytes) }
    ensures none { IfErr result (λ why. NoRest Leave.End why (R.remaining input.new)) }
{
    let mut bytes = [0u8; N];
    rest(input, &mut bytes, Leave::End)?;
    Ok(bytes)
}

// What n bytes that came of a head, and not all of it, tell of the stream.
fn begun(n: usize, broken: Leave) -> Leave
    ensures { result ≡ begun n broken }
{
    if n == 0 { Leave::End } else { broken }
}

// The head of the next request, of so many bytes.
pub fn head<R: Read, const N: usize>(input: &mut R, broken: Leave) -> Result<[u8; N], Leave>
    ensures whole { IfOk result (λ bytes. Consumes (R.remaining input.old) (R.remaining input.new) bytes) }
    ensures none { IfErr result (λ why. NoHead broken why (R.remaining input.old) (R.remaining input.new)) }
{
    let mut bytes = [0u8; N];
    let n = crate::fill_from(input, &mut bytes)?;
    if n < N {
        return Err(begun(n, broken));
    }
    Ok(bytes)
}

// What follows a head: as many bytes as there is room for.
pub fn rest<R: Read>(input: &mut R, bytes: &mut [u8], broken: Leave) -> Result<(), Leave>
    ensures whole { OnOk result (Consumes (R.remaining input.old) (R.remaining input.new) bytes.new) }
    ensures none { IfErr result (λ why. NoRest broken why (R.remaining input.new)) }
{
    if crate::fill_from(input, bytes)? < bytes.len() {
        return Err(broken);
    }
    Ok(())
}

// A part of an answer.
pub fn put<W: Write>(out: &mut W, bytes: &[u8]) -> Result<(), Leave>
    ensures written { OnOk result (Appends (W.contents out.old) (W.contents out.new) bytes.now) }
    ensures not { IsOkUnless result Leave.Unwritten }
{
    out.write_all(bytes).map_err(|_| Leave::Unwritten)
}

// A number of eight bytes, lowest byte first.
pub fn put_number<W: Write>(out: &mut W, n: u64) -> Result<(), Leave>
    ensures written { OnOk result (Appends (W.contents out.old) (W.contents out.new) (number_bytes n)) }
    ensures not { IsOkUnless result Leave.Unwritten }
{
    put(out, &wire::number_bytes(n))
}

// Refusal, place and count, of eight bytes each.
pub fn put_answer<W: Write>(out: &mut W, a: Answer) -> Result<(), Leave>
    ensures written { OnOk result (Appends (W.contents out.old) (W.contents out.new) (answer_bytes a)) }
    ensures not { IsOkUnless result Leave.Unwritten }
{
    put_number(out, a.refusal)?;
    put_number(out, a.place)?;
    put_number(out, a.count)
}

// A list, two bytes to a number, of at most so many bytes.
pub fn put_list<W: Write, const BYTES: usize>(out: &mut W, list: &[u16]) -> Result<(), Leave>
    requires room { 2 * length list.now ≤ BYTES }
    requires held { BYTES < 2 ^ 63 }
    ensures written { OnOk result (Appends (W.contents out.old) (W.contents out.new) (word_bytes list.now)) }
    ensures not { IsOkUnless result Leave.Unwritten }
{
    let mut bytes = [0u8; BYTES];
    let n = list.len();
    wire::encode(list, n, &mut bytes);
    put(out, &bytes[..2 * n])
}
