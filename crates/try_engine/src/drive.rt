// The steps of an engine, one after another.
ghost use Rattle.std.specs.Prelude.{◌≤◌, length};
ghost use Rattle.try_engine.specs.Request.{room_max};

use engine::Engine;
use inputs::Leave;
use std::io;

// How many numbers a step is lent at most.
const ROOM_MAX: usize = 8;

// Two bytes to a number.
const BYTES_MAX: usize = 2 * ROOM_MAX;

// What stands in a list before it is lent: no column, and something else from place to place, so that
// what has to stay is seen to stay.
const PATTERN: [u16; ROOM_MAX] = [60000, 60001, 60002, 60003, 60004, 60005, 60006, 60007];

// Makes a step, and writes its answer and all that was lent to it.
fn step(rt: HostRuntime, e: &mut Engine, list: &mut [u16]) -> Result<(), Leave>
    requires { length list.old ≤ room_max }
{
    let stepped = engine::step(*e, list);
    *e = stepped.engine;
    let mut out = io::writer(&rt);
    inputs::put_answer(&mut out, stepped.answer)?;
    inputs::put_list::<_, BYTES_MAX>(&mut out, list)
}

// Makes a step for each room, unless one is more than there is.
pub fn drive(rt: HostRuntime, mut e: Engine, rooms: &[u8]) -> Result<(), Leave> {
    for room in rooms {
        let n = usize::from(*room);
        if n > ROOM_MAX {
            return Err(Leave::LargeRoom);
        }
        let mut list = PATTERN;
        step(rt, &mut e, &mut list[..n])?;
    }
    Ok(())
}
