// The settings of a drawing, three numbers each: the first is that of aperture 10. Drawing makes no
// table of them: a setting is looked up where it is drawn with. `table` makes one for the reader of a
// file, which asks whether an aperture is defined.
#![tactic(auto)]

ghost use Rattle.std.specs.Prelude.{◌≡◌, ◌+◌, ◌*◌, ◌<◌, ◌^◌, get_or};
ghost use Rattle.setting_list.specs.Settings.{setting_count, settings_verdict, setting_verdict, table_of, held_count, is_one_of};

use aperture::Table;
use limits::Verdict;
use setting::Checked;

// The number at index k; one that is missing counts as 0.
pub fn number(settings: &[u64], k: usize) -> u64
    ensures { result ≡ get_or settings.now k 0 }
{
    settings.get(k).copied().unwrap_or(0)
}

// How many settings there are. Numbers left over are one more, with 0 for those that are missing.
fn count_of(settings: &[u64]) -> usize
    ensures { result ≡ setting_count settings.now }
{
    (settings.len() + 2) / 3
}

// Setting i by itself: whether there is an aperture for it, and then its limits.
fn setting_check(settings: &[u64], i: usize) -> Verdict
    requires { 3 * i + 10 < 2 ^ 64 }
    ensures { result ≡ setting_verdict settings.now i }
{
    let aperture = limits::APERTURE_MIN + i as u64;
    if !limits::within(aperture, limits::APERTURE_MIN, limits::APERTURE_MAX) {
        return Verdict::Refused(limits::NO_APERTURE, i as u64);
    }
    let at = 3 * i;
    let checked = setting::check(
        number(settings, at),
        number(settings, at + 1),
        number(settings, at + 2),
    );
    let Checked::Taken(s) = checked else {
        return Verdict::Refused(limits::BAD_SETTING, i as u64);
    };
    Verdict::Passed
}

// The first setting that is refused: a 33rd with 6, one outside the limits with 1. The place is its
// index.
pub fn settings_check(settings: &[u64]) -> Verdict
    ensures { result ≡ settings_verdict settings.now }
{
    for i in 0..count_of(settings) {
        let of_setting = setting_check(settings, i);
        if let Verdict::Refused(number, place) = of_setting {
            return Verdict::Refused(number, place);
        }
    }
    Verdict::Passed
}

// The table with the settings as apertures 10, 11, .., for one who reads strokes from a file. Where a
// setting is refused no aperture is defined in it.
pub fn table(settings: &[u64]) -> Table
    ensures { result ≡ (table_of settings.now).table }
{
    let mut t = aperture::none();
    for i in 0..count_of(settings) {
        let at = 3 * i;
        let changed = aperture::define(
            t,
            limits::APERTURE_MIN + i as u64,
            number(settings, at),
            number(settings, at + 1),
            number(settings, at + 2),
        );
        if changed.refusal != limits::DONE {
            return aperture::none();
        }
        t = changed.table;
    }
    t
}

// How many apertures there are, from 10 on: none where a setting is refused.
pub fn held_count(settings: &[u64]) -> u64
    ensures { result ≡ held_count settings.now }
{
    let Verdict::Passed = settings_check(settings) else {
        return 0;
    };
    count_of(settings) as u64
}

// Whether an aperture is one of so many.
pub fn is_held(held: u64, number: u64) -> bool
    ensures { result ≡ is_one_of held number }
{
    limits::APERTURE_MIN <= number && number - limits::APERTURE_MIN < held
}
