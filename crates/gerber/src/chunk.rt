// A chunk of a file: the scanner runs to the end of a command, and what the command asks for is done.
ghost use Rattle.std.specs.Prelude.{◌≡◌, length};
ghost use Rattle.chunks.specs.Machine.{call};
ghost use Rattle.gerber.specs.Reader.{acted, step_of, shown, is_end, used_of, answer};

use crate::{Fed, Given, Obeyed, Reader, command};
use aperture::Table;
use scan::Mode;

// How far a turn reads is the scanner's to say, so that no iterator gives the turns.
pub fn feed_on(r: Reader, t: Table, chunk: &[u8], path: &mut [i32]) -> Fed
    ensures { record { fed = result; entries = path.new } ≡ answer (length chunk.now) (call (step_of t) (record { reader = r; path = path.old }) chunk.now) }
{
    let mut reader = r;
    let mut i = 0;
    while i < chunk.len() {
        let scanned = scan::run(reader.scanner, chunk, i);
        i = scanned.end;
        let stopped = Reader {
            scanner: scanned.scanner,
            ..reader
        };
        let one = act(stopped, t, path);
        reader = one.reader;
        if is_end(one.given) {
            return Fed {
                reader,
                given: one.given,
                used: used_of(one.given, i),
            };
        }
    }
    Fed {
        reader,
        given: Given::More,
        used: i,
    }
}

// What the scanner's last byte asks for.
#[tactic(auto, unfolding(crate::specs::Reader::acted))]
fn act(r: Reader, t: Table, path: &mut [i32]) -> Obeyed
    ensures { record { told = result; entries = path.new } ≡ shown (acted t (record { reader = r; path = path.old })) }
{
    match r.scanner.mode {
        Mode::Bad => command::refuse(r, limits::BAD_COMMAND, r.scanner.start),
        Mode::Whole(c) => command::obey(r, t, c, path),
        _ => command::goes(r),
    }
}

// Whether the call ends with it.
fn is_end(g: Given) -> bool
    ensures { result ≡ is_end g }
{
    !matches!(g, Given::More)
}

// The bytes used: none for a refusal.
fn used_of(g: Given, read: usize) -> usize
    ensures { result ≡ used_of g read }
{
    match g {
        Given::Refused(_, _) => 0,
        _ => read,
    }
}
