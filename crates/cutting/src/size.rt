// The size of a setting's pen.
ghost use Rattle.std.specs.Prelude.{◌≡◌};
ghost use Rattle.setting.specs.Setting.{Taken, Dx, Dy};

use setting::Setting;

// How many pixels high the pen is.
pub fn height(s: Setting) -> u64
    requires { Taken s }
    ensures { result ≡ Dy s }
{
    (s.w + 8) / 16
}

// How many pixels wide the pen is.
pub fn width(s: Setting) -> u64
    requires { Taken s }
    ensures { result ≡ Dx s }
{
    (s.w * s.p + 8 * s.q) / (16 * s.q)
}
