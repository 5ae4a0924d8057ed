// Document 01's sizes and refusal numbers: each stands here, and nowhere else in the code. The same
// numbers for the definitions are in specs/: Refusal and Sizes, line for line.
#![tactic(auto)]

ghost use Rattle.std.specs.Prelude.{◌≡◌};
ghost use Rattle.limits.specs.Sizes.{within, in_range, is_size};

// "Setting: width w in sixteenths, 16 to 512"
pub const WIDTH_MIN: u64 = 16;

pub const WIDTH_MAX: u64 = 512;

// "aspect p/q with p and q each 1 to 16"
pub const ASPECT_MAX: u64 = 16;

// "Path: .. 1 to 4,096 points": two entries each
pub const ENTRIES_MAX: usize = 8192;

// "each coordinate from -262,144 to 262,144"
pub const COORDINATE_MIN: i32 = -262144;

pub const COORDINATE_MAX: i32 = 262144;

// "Raster: columns and rows each 1 to 16,384."
pub const RASTER_MAX: usize = 16384;

// "Apertures are numbered 10 to 41: 32 places"
pub const APERTURE_MIN: u64 = 10;

pub const APERTURE_MAX: u64 = 41;

pub const PLACES: usize = 32;

// "It has at most 33 corners, the whole at most 132."
pub const QUARTER_MAX: usize = 33;

pub const PEN_MAX: usize = 132;

// The table of refusal numbers. A later one is a line here, and one in specs/Refusal.
pub const DONE: u64 = 0;

pub const BAD_SETTING: u64 = 1;

pub const BAD_PATH: u64 = 2;

pub const BAD_COORDINATE: u64 = 3;

pub const BAD_RASTER: u64 = 4;

pub const BAD_ROW: u64 = 5;

pub const NO_APERTURE: u64 = 6;

pub const NO_ROOM: u64 = 7;

pub const IN_USE: u64 = 8;

pub const BAD_COMMAND: u64 = 14;

// What a check answers: nothing to refuse, or the refusal's number and place.
#[derive(Clone, Copy)]
pub enum Verdict {
    Passed,
    Refused(u64, u64),
}

// Whether x is from low to high.
pub fn within(x: u64, low: u64, high: u64) -> bool
    ensures { result ≡ within x low high }
{
    low <= x && x <= high
}

// Whether a path can have the coordinate z.
pub fn in_range(z: i32) -> bool
    ensures { result ≡ in_range z }
{
    COORDINATE_MIN <= z && z <= COORDINATE_MAX
}

// Whether a raster can have n columns or n rows.
pub fn is_size(n: u64) -> bool
    ensures { result ≡ is_size n }
{
    within(n, 1, RASTER_MAX as u64)
}
