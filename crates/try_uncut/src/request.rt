// A request: its head of seven numbers.
ghost use Rattle.std.specs.Prelude.{◌≡◌};
ghost use Rattle.try_uncut.specs.Request.{request_of};

// What the tool can hold: far more entries than a segment has.
pub const PATH_MAX: usize = 1024;

#[derive(Drop)]
pub struct Request {
    pub w: u64,
    pub p: u64,
    pub q: u64,
    pub defined: u64,
    pub number: u64,
    pub row: u64,
    pub entries: u64,
}

pub const HEAD: usize = 56;

pub fn decode(head: &[u8]) -> Request
    ensures { result ≡ request_of head.now }
{
    Request {
        w: wire::number(head, 0),
        p: wire::number(head, 8),
        q: wire::number(head, 16),
        defined: wire::number(head, 24),
        number: wire::number(head, 32),
        row: wire::number(head, 40),
        entries: wire::number(head, 48),
    }
}
