// A band of a film: its bytes are cleared, and the strokes laid over them one after the other.
ghost use Rattle.std.specs.Prelude.{◌≡◌, ◌-◌, ◌*◌, ◌≤◌, ◌<◌, ◌^◌, length};
ghost use Rattle.band.specs.Band.{band_call};
ghost use Rattle.setting_list.specs.Settings.{setting_at};
ghost use Rattle.drawing.specs.Strokes.{drawing_of};
ghost use Rattle.drawing.specs.Film.{band_of};
ghost use Rattle.film_band.specs.Code.{Drawn};

use film_checks::strokes::path_of;
use setting_list::number;

// Lays a stroke over a band, with the setting of its aperture.
fn lay_stroke(
    settings: &[u64],
    aperture: u64,
    path: &[i32],
    columns: u64,
    rows: u64,
    first: u64,
    n: u64,
    bytes: &mut [u8],
    width: usize,
)
    requires low { 10 ≤ aperture }
    requires high { 3 * aperture < 2 ^ 64 }
    ensures { bytes.new
        ≡ (band_call (setting_at settings.now (aperture - 10)) path.now columns rows first n width bytes.old).list }
{
    let at = 3 * (aperture - limits::APERTURE_MIN) as usize;
    band::lay(
        number(settings, at),
        number(settings, at + 1),
        number(settings, at + 2),
        path,
        columns,
        rows,
        first,
        n,
        bytes,
        width,
    );
}

// Fills the bytes with n rows of the film from row `first` on, so many bytes to each.
pub fn draw(
    settings: &[u64],
    apertures: &[u64],
    starts: &[usize],
    entries: &[i32],
    columns: u64,
    rows: u64,
    first: u64,
    n: u64,
    bytes: &mut [u8],
    width: usize,
)
    requires drawn { Drawn (drawing_of settings.now apertures.now starts.now entries.now) columns rows first n width }
    requires room { length bytes.old ≡ n * width }
    ensures { bytes.new
        ≡ band_of (drawing_of settings.now apertures.now starts.now entries.now) columns rows first n }
{
    bytes.fill(0);
    for (k, aperture) in apertures.iter().enumerate() {
        let path = path_of(starts, entries, k);
        lay_stroke(
            settings, *aperture, path, columns, rows, first, n, bytes, width,
        );
    }
}
