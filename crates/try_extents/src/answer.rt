// The bytes of an answer.
ghost use Rattle.std.specs.Prelude.{◌≡◌};
ghost use Rattle.try_extents.specs.Answer.{bytes_of};

// The byte 1 and the two columns, lowest byte first.
pub fn columns(first: i64, last: i64) -> [u8; 17]
    ensures { result ≡ bytes_of first last }
{
    let f = wire::eight(first);
    let l = wire::eight(last);
    [
        1, f[0], f[1], f[2], f[3], f[4], f[5], f[6], f[7], l[0], l[1], l[2], l[3], l[4], l[5],
        l[6], l[7],
    ]
}
