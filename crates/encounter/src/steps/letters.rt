//! One side's letters, and the rounded c(0), each with whether something was lost on its way; and M.
ghost use Rattle.std.specs.Prelude.{◌≡◌, true, ◌-◌, ◌*◌, ◌≤◌, ◌<◌};
ghost use Rattle.exact.specs.Fraction.{◌over◌};
ghost use Rattle.exact.specs.Numbers.{largest_length};
ghost use Rattle.exact.specs.Arithmetic.{rounded, traced};
ghost use Rattle.exact.specs.Losses.{letter_numbers, traced_letters};
ghost use Rattle.exact.specs.Private.Ranges.{Bounds, LettersIn};
ghost use Rattle.exact.specs.Series.{u, b, zx, zy, g};
ghost use Rattle.exact.specs.Steps.{bound as bound_of, start as start_of};
ghost use Rattle.encounter.specs.Private.Held.{step_letters, set_letters};

use crate::arithmetic::scaled;
use crate::arithmetic::scaled::{halved, ratio};
use crate::arithmetic::traced::{product, sum};
use crate::state::Letters;
use crate::steps::numbers::LetterSet;
use exact::{Encounter, Scaled, Traced};

// x × y of lengths in centimetres.
fn times(x: u32, y: u32) -> u64
    requires { (x ≤ largest_length) × (y ≤ largest_length) }
    ensures { (result ≡ x * y) × (result ≤ largest_length * largest_length) }
{
    u64::from(x) * u64::from(y)
}

// x² / (2y²).
fn squares(up: bool, x: u32, y: u32) -> Traced
    requires { (x ≤ largest_length) × (0 < y) × (y ≤ largest_length) }
    ensures { result ≡ (traced up 32).fraction ((x * x) over (2 * (y * y))) }
{
    ratio(up, times(x, x), 2 * times(y, y))
}

// g.
fn excess(up: bool, sx: u32, sy: u32) -> Traced
    requires { (sx ≤ largest_length) × (0 < sx) × (sy ≤ sx) }
    ensures { result ≡ (traced up 32).fraction ((sx * sx - sy * sy) over (sx * sx)) }
{
    let xx = times(sx, sx);
    let yy = times(sy, sy);
    ratio(up, xx - yy, xx)
}

/// c(0). `Bounds`, and the lengths' limits that follow of it, are premises of private functions: `Encounter` is C's, and a type of its own would be unpacked in each.
pub fn start(up: bool, E: Encounter) -> Traced
    requires { Bounds E }
    ensures { result ≡ start_of (traced up 32) E }
{
    ratio(up, times(E.R, E.R), 2 * times(E.sx, E.sy))
}

// What the letters are formed of.
#[derive(Clone, Copy)]
struct Parts {
    u: Traced,
    b: Traced,
    zx: Traced,
    zy: Traced,
    g: Traced,
}

fn fractions(up: bool, E: Encounter) -> Parts
    requires { Bounds E }
    ensures { (result.u ≡ (traced up 32).fraction (u E)) × (result.b ≡ (traced up 32).fraction (b E)) × (result.zx ≡ (traced up 32).fraction (zx E)) × (result.zy ≡ (traced up 32).fraction (zy E)) × (result.g ≡ (traced up 32).fraction (g E)) }
{
    Parts {
        u: squares(up, E.R, E.sy),
        b: squares(up, E.R, E.sx),
        zx: squares(up, E.xm.unsigned_abs(), E.sx),
        zy: squares(up, E.ym.unsigned_abs(), E.sy),
        g: excess(up, E.sx, E.sy),
    }
}

pub fn letters(up: bool, E: Encounter) -> LetterSet<Traced>
    requires { Bounds E }
    ensures { (set_letters result ≡ traced_letters up E) × (LettersIn (letter_numbers (set_letters result))) }
{
    let f = fractions(up, E);
    LetterSet {
        u: f.u,
        h: product(up, f.u, f.g),
        X: product(up, f.zx, f.b),
        Y: product(up, f.zy, f.u),
        t: sum(up, sum(up, f.zx, f.zy), f.u),
    }
}

/// M.
pub fn bound(l: Letters) -> Scaled
    requires { LettersIn (step_letters l) }
    ensures { result ≡ bound_of (rounded true 32) (step_letters l) }
{
    let a = scaled::sum(true, l.u, halved(l.h));
    let b = scaled::sum(true, a.number, l.X);
    scaled::sum(true, b.number, l.Y).number
}
