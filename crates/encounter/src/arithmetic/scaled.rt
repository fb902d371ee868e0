//! The operations on scaled numbers: each answers D (up is false) or U (up is true) of the exact value, and whether that lost anything. The direction is a bool, as it is
//! in every definition. They are functions, and not methods, since `Scaled` and `Traced` are of crate exact; each is one line over that of wide.rt, and those of traced.rt
//! over these: one function over the operation would have its premise and its value as ghost arguments, and be no plainer.
ghost use Rattle.std.specs.Prelude.{◌≡◌, false, ◌^◌, ◌<◌};
ghost use Rattle.exact.specs.Arithmetic.{rounding};
ghost use Rattle.exact.specs.Fraction.{◌⊕◌, ◌⊗◌, ◌÷◌, ◌⊘◌, ◌over◌, at_most};
ghost use Rattle.exact.specs.Scaled.{value, half, double, Normal};
ghost use Rattle.exact.specs.Private.Ranges.{InRange};

use crate::arithmetic::rounding::{bits, fit, followed, long_division, room};
use crate::arithmetic::wide;
use crate::arithmetic::wide::{Wide, moved};
use exact::{Scaled, Traced};

/// a × b.
pub fn product(up: bool, a: Scaled, b: Scaled) -> Traced
    requires { (InRange 32 (2 ^ 28) a) × (InRange 32 (2 ^ 28) b) }
    ensures { result ≡ rounding up 32 (value a ⊗ value b) false }
{
    wide::product(up, Wide::from(a), Wide::from(b)).narrowed()
}

/// a + b.
pub fn sum(up: bool, a: Scaled, b: Scaled) -> Traced
    requires { (InRange 32 (2 ^ 28) a) × (InRange 32 (2 ^ 28) b) }
    ensures { result ≡ rounding up 32 (value a ⊕ value b) false }
{
    wide::sum(up, Wide::from(a), Wide::from(b)).narrowed()
}

/// a / k, for a whole number k.
pub fn over(up: bool, a: Scaled, k: u64) -> Traced
    requires { (InRange 32 (2 ^ 28) a) × (0 < k) × (k < 2 ^ 32) }
    ensures { result ≡ rounding up 32 (value a ÷ k) false }
{
    wide::over(up, Wide::from(a), k).narrowed()
}

/// a / b, where b is not zero.
pub fn quotient(up: bool, a: Scaled, b: Scaled) -> Traced
    requires { (InRange 32 (2 ^ 28) a) × (InRange 32 (2 ^ 28) b) × (Normal 32 b) }
    ensures { result ≡ rounding up 32 (value a ⊘ value b) false }
{
    wide::quotient(up, Wide::from(a), Wide::from(b)).narrowed()
}

/// n / d of whole numbers: both followed by zeros, so that d has 48 bits and 16 bits more of their quotient make 32.
pub fn ratio(up: bool, n: u64, d: u64) -> Traced
    requires { (n < 2 ^ 48) × (d < 2 ^ 48) × (0 < d) }
    ensures { result ≡ rounding up 32 (n over d) false }
{
    if n == 0 {
        return Traced {
            number: Scaled::ZERO,
            lost: false,
        };
    }
    let s = bits(d);
    let k = followed(d, 48 - s);
    let t = room(n, k);
    fit(up, long_division(up, n, t, k), 32 - (s + t) as i64).narrowed()
}

/// a / 2, exactly.
pub fn halved(a: Scaled) -> Scaled
    requires { InRange 32 (2 ^ 28) a }
    ensures { result ≡ half a }
{
    wide::halved(Wide::from(a)).narrowed()
}

/// 2 × a, exactly.
pub fn doubled(a: Scaled) -> Scaled
    requires { InRange 32 (2 ^ 28) a }
    ensures { result ≡ double a }
{
    moved(Wide::from(a), -1).narrowed()
}

/// Whether a is at most b.
pub fn at_most(a: Scaled, b: Scaled) -> bool
    requires { (InRange 32 (2 ^ 28) a) × (InRange 32 (2 ^ 28) b) }
    ensures { result ≡ at_most (value a) (value b) }
{
    wide::at_most(Wide::from(a), Wide::from(b))
}
