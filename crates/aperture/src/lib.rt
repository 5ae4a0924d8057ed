// The table of apertures: 32 places, numbered 10 to 41, each empty or holding a setting and its
// pen. A table goes in by value and comes back by value; only define and remove change one.
//
// No function asks anything of the table it is given: each answer is the one of specs/Table.antt
// for whatever the places hold. What tables made here hold is said by specs/Reachable.antt.
#![tactic(auto)]

ghost use Rattle.std.specs.Prelude.{◌≡◌, true};
ghost use Rattle.setting.specs.Setting.{Taken};
ghost use Rattle.aperture.specs.Table.{is_number, vacant, holding, empty, place_of, with_place, is_held, defined, removed, looked};

use pen::Pen;
use setting::{Checked, Setting};

#[derive(Clone, Copy)]
pub struct Place {
    pub used: bool,
    pub setting: Setting,
    pub pen: Pen,
}

#[derive(Clone, Copy)]
pub struct Table {
    pub places: [Place; limits::PLACES],
}

// Document 01's refusal number, and the table, which is unchanged on a refusal.
#[derive(Clone, Copy)]
pub struct Changed {
    pub refusal: u64,
    pub table: Table,
}

// What looking a number up answers: the index of a place in use, or refusal 6.
#[derive(Clone, Copy)]
pub enum Looked {
    At(usize),
    Refused,
}

// The table in which no aperture is defined.
pub fn none() -> Table
    ensures { result ≡ empty }
{
    let place = vacant();
    Table {
        places: [place; limits::PLACES],
    }
}

// The checks in document 01's order: the number (6), the setting (1), in use (8).
pub fn define(t: Table, number: u64, w: u64, p: u64, q: u64) -> Changed
    ensures { result ≡ defined t number (record { w = w; p = p; q = q }) }
{
    if !is_number(number) {
        return Changed {
            refusal: limits::NO_APERTURE,
            table: t,
        };
    }
    let Checked::Taken(s) = setting::check(w, p, q) else {
        return Changed {
            refusal: limits::BAD_SETTING,
            table: t,
        };
    };
    if is_used(t, number) {
        return Changed {
            refusal: limits::IN_USE,
            table: t,
        };
    }
    let place = holding(s);
    Changed {
        refusal: limits::DONE,
        table: with_place(t, number, place),
    }
}

// Only an aperture in use can be removed. It may be defined again.
pub fn remove(t: Table, number: u64) -> Changed
    ensures { result ≡ removed t number }
{
    if !is_held(t, number) {
        return Changed {
            refusal: limits::NO_APERTURE,
            table: t,
        };
    }
    let place = vacant();
    Changed {
        refusal: limits::DONE,
        table: with_place(t, number, place),
    }
}

// The index of an aperture's place, for a caller that needs its pen.
pub fn look_up(t: Table, number: u64) -> Looked
    ensures { result ≡ looked t number }
{
    if !is_held(t, number) {
        return Looked::Refused;
    }
    let found = (number - limits::APERTURE_MIN) as usize;
    Looked::At(found)
}

fn is_number(number: u64) -> bool
    ensures { result ≡ is_number number }
{
    limits::within(number, limits::APERTURE_MIN, limits::APERTURE_MAX)
}

// Whether the place of a number is in use, whatever it holds.
fn is_used(t: Table, number: u64) -> bool
    requires { is_number number ≡ true }
    ensures { result ≡ (place_of t number).used }
{
    let i = (number - limits::APERTURE_MIN) as usize;
    let place = t.places[i];
    place.used
}

// The same for any number: one that no aperture has is not in use.
fn is_held(t: Table, number: u64) -> bool
    ensures { result ≡ is_held t number }
{
    if !is_number(number) {
        return false;
    }
    is_used(t, number)
}

// The table with another place at a number, and every other place as it was.
fn with_place(t: Table, number: u64, place: Place) -> Table
    requires { is_number number ≡ true }
    ensures { result ≡ with_place t number place }
{
    let at = (number - limits::APERTURE_MIN) as usize;
    let mut next = t;
    next.places[at] = place;
    next
}

// Nothing of an earlier setting or pen stays: all of it is zeros.
fn vacant() -> Place
    ensures { result ≡ vacant }
{
    Place {
        used: false,
        setting: Setting { w: 0, p: 0, q: 0 },
        pen: Pen {
            count: 0,
            x: [0; limits::PEN_MAX],
            y: [0; limits::PEN_MAX],
        },
    }
}

// A setting and its own pen, so that a place never has the one without the other. The setting has
// been checked, and so there is a pen.
fn holding(s: Setting) -> Place
    requires { Taken s }
    ensures { result ≡ holding s }
{
    let built = pen::build(s.w, s.p, s.q);
    let pen = built.pen;
    Place {
        used: true,
        setting: s,
        pen: pen,
    }
}
