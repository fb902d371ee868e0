//! The operations on numbers with their losses (request #105 of document 02): what was lost on the way to an operand was lost on the way to the result, also where a
//! factor is zero.
ghost use Rattle.std.specs.Prelude.{◌≡◌, Bool, false, ◌||◌, ◌^◌, ◌<◌};
ghost use Rattle.exact.specs.Arithmetic.{traced};
ghost use Rattle.exact.specs.Private.Ranges.{InRange};

use crate::arithmetic::scaled;
use exact::{Scaled, Traced};

/// A number on whose way nothing was lost. No `From`: both types are of crate exact.
pub fn clean(number: Scaled) -> Traced
    ensures { result ≡ record { number = number; lost = false } }
{
    Traced {
        number,
        lost: false,
    }
}

// r, where something was lost before it or not. `|` and no `||`: there is no branch.
fn passed_on(before: bool, r: Traced) -> Traced
    ensures { result ≡ record { number = r.number; lost = before || r.lost } }
{
    Traced {
        number: r.number,
        lost: before | r.lost,
    }
}

/// a × b.
pub fn product(up: bool, a: Traced, b: Traced) -> Traced
    requires { (InRange 32 (2 ^ 28) a.number) × (InRange 32 (2 ^ 28) b.number) }
    ensures { result ≡ (traced up 32).product a b }
{
    passed_on(a.lost | b.lost, scaled::product(up, a.number, b.number))
}

/// a + b.
pub fn sum(up: bool, a: Traced, b: Traced) -> Traced
    requires { (InRange 32 (2 ^ 28) a.number) × (InRange 32 (2 ^ 28) b.number) }
    ensures { result ≡ (traced up 32).sum a b }
{
    passed_on(a.lost | b.lost, scaled::sum(up, a.number, b.number))
}

/// a / k, for a whole number k.
pub fn over(up: bool, a: Traced, k: u64) -> Traced
    requires { (InRange 32 (2 ^ 28) a.number) × (0 < k) × (k < 2 ^ 32) }
    ensures { result ≡ (traced up 32).quotient a k }
{
    passed_on(a.lost, scaled::over(up, a.number, k))
}

/// a / 2, exactly.
pub fn halved(a: Traced) -> Traced
    requires { InRange 32 (2 ^ 28) a.number }
    ensures { (up : Bool) → result ≡ (traced up 32).half a }
{
    Traced {
        number: scaled::halved(a.number),
        lost: a.lost,
    }
}
