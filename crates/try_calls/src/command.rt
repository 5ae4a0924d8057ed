// A command: its head of seven numbers.
ghost use Rattle.std.specs.Prelude.{◌≡◌};
ghost use Rattle.std.specs.Result.{result_ok};
ghost use Rattle.try_calls.specs.Command.{kind_of, command_of};

use inputs::Leave;

// The calls that draw.
#[derive(Clone, Copy, PartialEq, Eq, Debug)]
pub enum Form {
    Row,
    Packed,
    Records,
}

#[derive(Clone, Copy, PartialEq, Eq, Debug)]
pub enum Kind {
    Start,
    Define,
    Remove,
    Draw(Form),
}

impl TryFrom<u64> for Kind {
    type Error = Leave;

    ghost try_from_gives = { λ n r. result_ok r ≡ kind_of n };

    fn try_from(n: u64) -> Result<Kind, Leave> {
        match n {
            0 => Ok(Kind::Start),
            1 => Ok(Kind::Define),
            2 => Ok(Kind::Remove),
            3 => Ok(Kind::Draw(Form::Row)),
            4 => Ok(Kind::Draw(Form::Packed)),
            5 => Ok(Kind::Draw(Form::Records)),
            _ => Err(Leave::NoKind),
        }
    }
}

// What the tool can hold: more entries than a path may have; numbers, or bytes, to lend; and records,
// more than a path can have runs.
pub const PATH_MAX: usize = 8200;

pub const ROOM_MAX: usize = 8200;

pub const RECORDS_MAX: usize = 4100;

// What a, b and c are, the kind says: w, p and q, or the columns, the rows and the row.
#[derive(Clone, Copy)]
pub struct Command {
    pub kind: Kind,
    pub number: u64,
    pub a: u64,
    pub b: u64,
    pub c: u64,
    pub room: u64,
    pub entries: u64,
}

pub const HEAD: usize = 56;

pub fn decode(head: &[u8]) -> Result<Command, Leave>
    ensures { result_ok result ≡ command_of head.now }
{
    Ok(Command {
        kind: Kind::try_from(wire::number(head, 0))?,
        number: wire::number(head, 8),
        a: wire::number(head, 16),
        b: wire::number(head, 24),
        c: wire::number(head, 32),
        room: wire::number(head, 40),
        entries: wire::number(head, 48),
    })
}
