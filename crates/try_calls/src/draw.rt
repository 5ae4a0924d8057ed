// A call that draws: its path is read, it is lent a list or a buffer that holds the pattern, and its
// answer is written with all that was lent.
ghost use Rattle.std.specs.Prelude.{◌≤◌, length};
ghost use Rattle.try_calls.specs.Command.{records_max, room_max};

use crate::command::{Command, Form, PATH_MAX, RECORDS_MAX, ROOM_MAX};
use crate::pattern;
use aperture::Table;
use inputs::Leave;
use records::Run;
use std::io;
use std::io::Write;

// How many bytes a list's numbers have at most, two to a number.
const BYTES_MAX: usize = 2 * ROOM_MAX;

const NOTHING: Run = Run { left: 0, right: 0 };

fn row(rt: HostRuntime, t: Table, c: Command, path: &[i32], list: &mut [u16]) -> Result<(), Leave>
    requires { length list.old ≤ room_max }
{
    pattern::fill(list);
    let answer = row::row_runs(t, c.number, path, c.a, c.b, c.c, list);
    let mut out = io::writer(&rt);
    inputs::put_answer(&mut out, answer)?;
    inputs::put_list::<_, BYTES_MAX>(&mut out, list)
}

fn packed(
    rt: HostRuntime,
    t: Table,
    c: Command,
    path: &[i32],
    bytes: &mut [u8],
) -> Result<(), Leave>
    requires { length bytes.old ≤ room_max }
{
    pattern::fill(bytes);
    let answer = packed::packed_row(t, c.number, path, c.a, c.b, c.c, bytes);
    let mut out = io::writer(&rt);
    inputs::put_answer(&mut out, answer)?;
    inputs::put(&mut out, bytes)
}

// Two numbers to a record.
fn put_records<W: Write>(out: &mut W, list: &[Run]) -> Result<(), Leave>
    requires { length list.now ≤ records_max }
{
    let mut numbers = [0u16; ROOM_MAX];
    for (i, run) in list.iter().enumerate() {
        numbers[2 * i] = run.left;
        numbers[2 * i + 1] = run.right;
    }
    inputs::put_list::<_, BYTES_MAX>(out, &numbers[..2 * list.len()])
}

fn records(
    rt: HostRuntime,
    t: Table,
    c: Command,
    path: &[i32],
    list: &mut [Run],
) -> Result<(), Leave>
    requires { length list.old ≤ records_max }
{
    pattern::fill(list);
    let answer = records::row_records(t, c.number, path, c.a, c.b, c.c, list);
    let mut out = io::writer(&rt);
    inputs::put_answer(&mut out, answer)?;
    put_records(&mut out, list)
}

// Makes a call that draws, with so much room.
fn call(
    rt: HostRuntime,
    t: Table,
    form: Form,
    c: Command,
    path: &[i32],
    room: usize,
) -> Result<(), Leave>
    requires { room ≤ room_max }
{
    match form {
        Form::Row => {
            let mut list = [0u16; ROOM_MAX];
            row(rt, t, c, path, &mut list[..room])
        }
        Form::Packed => {
            let mut bytes = [0u8; ROOM_MAX];
            packed(rt, t, c, path, &mut bytes[..room])
        }
        Form::Records => {
            if room > RECORDS_MAX {
                return Err(Leave::LongPath);
            }
            let mut list = [NOTHING; RECORDS_MAX];
            records(rt, t, c, path, &mut list[..room])
        }
    }
}

// Reads the path of a call that draws, four bytes to an entry, and makes the call.
fn call_on(
    rt: HostRuntime,
    t: Table,
    form: Form,
    c: Command,
    room: usize,
    bytes: &mut [u8],
    path: &mut [i32],
) -> Result<(), Leave>
    requires { room ≤ room_max }
{
    inputs::rest(&mut rt.stdin(), bytes, Leave::BrokenPath)?;
    wire::decode(bytes, path);
    call(rt, t, form, c, path, room)
}

pub fn draw(rt: HostRuntime, t: Table, form: Form, c: Command) -> Result<(), Leave> {
    if c.entries > PATH_MAX as u64 || c.room > ROOM_MAX as u64 {
        return Err(Leave::LongPath);
    }
    let n = c.entries as usize;
    let end = 4 * n;
    let mut bytes = [0u8; 4 * PATH_MAX];
    let mut path = [0i32; PATH_MAX];
    call_on(
        rt,
        t,
        form,
        c,
        c.room as usize,
        &mut bytes[..end],
        &mut path[..n],
    )
}
