//! The arithmetic on scaled numbers in two machine words: each operation answers D (up is false) or U (up is true) of the exact value, and whether it lost anything.
//! Bounds of exponents are premises, and no invariant of a type: callers have 177, 387, 400 and others, and a result has a wider one than its operands. `as` stands where
//! a premise rules out a loss; a `try_from` would add a test.
ghost use Rattle.std.specs.Prelude.{◌≡◌, false, ◌/◌, ◌%◌, ◌^◌, ◌≤◌, ◌<◌, min, ltb, ◌-ℤ◌, ◌≤ℤ◌};
ghost use Rattle.exact.specs.Fraction.{◌⊕◌, ◌⊗◌, ◌÷◌, ◌⊘◌, at_most};
ghost use Rattle.exact.specs.Integer.{pos_part, neg_part};
ghost use Rattle.exact.specs.Scaled.{value, with_exponent, half, Normal};
ghost use Rattle.exact.specs.Private.Ranges.{InRange};
ghost use Rattle.encounter.specs.Private.Loops.{narrow, IsWhole, Rounds, IsReciprocal};

use crate::arithmetic::rounding::{Whole, bits, divided, fit, followed};
use exact::{Scaled, Traced};

/// m × 2^e.
#[derive(Clone, Copy)]
pub struct Wide {
    pub m: u64,
    pub e: i64,
}

/// A rounded number, and whether its rounding lost anything (request #105). Not generic with `Whole` and `Traced`: the flags mean different things.
#[derive(Clone, Copy)]
pub struct Rounded {
    pub number: Wide,
    pub lost: bool,
}

impl From<Scaled> for Wide {
    ghost from_gives = { λ a w. narrow w ≡ a };

    fn from(a: Scaled) -> Wide {
        Wide {
            m: u64::from(a.m),
            e: i64::from(a.e),
        }
    }
}

impl Wide {
    /// Not a From: it has a premise.
    pub fn narrowed(self) -> Scaled
        requires { InRange 32 (2 ^ 30) (narrow self) }
        ensures { result ≡ narrow self }
    {
        Scaled {
            m: self.m as u32,
            e: self.e as i32,
        }
    }
}

impl Rounded {
    // A number that is exact as it stands.
    fn exact(number: Wide) -> Rounded
        ensures { (result.number ≡ number) × (result.lost ≡ false) }
    {
        Rounded {
            number,
            lost: false,
        }
    }

    pub fn narrowed(self) -> Traced
        requires { InRange 32 (2 ^ 30) (narrow self.number) }
        ensures { result ≡ record { number = narrow self.number; lost = self.lost } }
    {
        Traced {
            number: self.number.narrowed(),
            lost: self.lost,
        }
    }
}

/// a × b.
pub fn product(up: bool, a: Wide, b: Wide) -> Rounded
    requires { (InRange 32 (2 ^ 28) (narrow a)) × (InRange 32 (2 ^ 28) (narrow b)) }
    ensures { Rounds up (value (narrow a) ⊗ value (narrow b)) result }
{
    let h = a.m * b.m;
    if h == 0 {
        return Rounded::exact(Wide { m: 0, e: 0 });
    }
    fit(up, divided(up, h, 2147483648), a.e + b.e + 31)
}

// y / 2^g, or where up is true the whole number at or above it.
fn shifted(up: bool, y: u64, g: u64) -> Whole
    requires { (0 < y) × (y < 2 ^ 32) }
    ensures { IsWhole up (y / 2 ^ g) (ltb 0 (y % 2 ^ g)) result }
{
    // 63 already leaves nothing of a mantissa
    let s = g.min(63);
    let below = y >> s;
    let rest = followed(below, s) < y;
    if up {
        let part = ((y - 1) >> s) + 1;
        return Whole { part, rest };
    }
    Whole { part: below, rest }
}

// a + b, where neither is zero and a's exponent is at least b's.
fn aligned(up: bool, a: Wide, b: Wide) -> Rounded
    requires { (InRange 32 (2 ^ 28) (narrow a)) × (InRange 32 (2 ^ 28) (narrow b)) × (Normal 32 (narrow a)) × (Normal 32 (narrow b)) × (b.e ≤ℤ a.e) }
    ensures { Rounds up (value (narrow a) ⊕ value (narrow b)) result }
{
    let below = shifted(up, b.m, (a.e - b.e) as u64);
    fit(
        up,
        Whole {
            part: a.m + below.part,
            rest: below.rest,
        },
        a.e,
    )
}

/// a + b.
pub fn sum(up: bool, a: Wide, b: Wide) -> Rounded
    requires { (InRange 32 (2 ^ 28) (narrow a)) × (InRange 32 (2 ^ 28) (narrow b)) }
    ensures { Rounds up (value (narrow a) ⊕ value (narrow b)) result }
{
    if b.m == 0 {
        return Rounded::exact(a);
    }
    if a.m == 0 {
        return Rounded::exact(b);
    }
    if a.e < b.e {
        aligned(up, b, a)
    } else {
        aligned(up, a, b)
    }
}

/// a / k: followed by as many zeros as k has bits, a's mantissa has a quotient of 32 or 33 bits.
pub fn over(up: bool, a: Wide, k: u64) -> Rounded
    requires { (InRange 32 (2 ^ 28) (narrow a)) × (0 < k) × (k < 2 ^ 32) }
    ensures { Rounds up (value (narrow a) ÷ k) result }
{
    if a.m == 0 {
        return Rounded::exact(a);
    }
    let t = bits(k);
    fit(up, divided(up, followed(a.m, t), k), a.e - t as i64)
}

/// What a division by k has in common with every other by k.
#[derive(Clone, Copy)]
pub struct Reciprocal {
    pub k: u64,
    pub bits: u64,
    pub high: u64,
    pub low: u64,
}

impl Reciprocal {
    pub fn of(k: u64) -> Reciprocal
        requires { (0 < k) × (k ≤ 2 ^ 25) }
        ensures { (result.k ≡ k) × IsReciprocal result }
    {
        let bits = bits(k);
        let n = followed(2147483648, bits);
        let high = n / k;
        let low = (n % k * 4294967296).div_ceil(k);
        Reciprocal { k, bits, high, low }
    }
}

/// a / k, by the reciprocal of k: the contract of `over`, faster where one k divides several numbers (docs/DECISIONS.md, 'Division by n + 2').
pub fn over_by(up: bool, a: Wide, by: Reciprocal) -> Rounded
    requires { (InRange 32 (2 ^ 28) (narrow a)) × IsReciprocal by }
    ensures { Rounds up (value (narrow a) ÷ by.k) result }
{
    if a.m == 0 {
        return Rounded::exact(a);
    }
    let h = a.m * by.high + a.m * by.low / 4294967296;
    fit(up, divided(up, h, 2147483648), a.e - by.bits as i64)
}

/// a / 2^k, exactly.
pub fn moved(a: Wide, k: i64) -> Wide
    requires { (InRange 32 (2 ^ 28) (narrow a)) × (pos_part k ≤ 2 ^ 28) × (neg_part k ≤ 2 ^ 28) }
    ensures { narrow result ≡ with_exponent (narrow a) (a.e -ℤ k) }
{
    if a.m == 0 {
        return a;
    }
    Wide { m: a.m, e: a.e - k }
}

/// a / 2, exactly.
pub fn halved(a: Wide) -> Wide
    requires { InRange 32 (2 ^ 28) (narrow a) }
    ensures { narrow result ≡ half (narrow a) }
{
    moved(a, 1)
}

/// a / b, where b is not zero: by b's mantissa, which has 32 bits.
pub fn quotient(up: bool, a: Wide, b: Wide) -> Rounded
    requires { (InRange 32 (2 ^ 28) (narrow a)) × (InRange 32 (2 ^ 28) (narrow b)) × (Normal 32 (narrow b)) }
    ensures { Rounds up (value (narrow a) ⊘ value (narrow b)) result }
{
    if a.m == 0 {
        return Rounded::exact(a);
    }
    fit(up, divided(up, followed(a.m, 32), b.m), a.e - b.e - 32)
}

/// Whether a is at most b. Not `Ord`: zero has e = 0, so the order is not that of the fields.
pub fn at_most(a: Wide, b: Wide) -> bool
    requires { (InRange 32 (2 ^ 28) (narrow a)) × (InRange 32 (2 ^ 28) (narrow b)) }
    ensures { result ≡ at_most (value (narrow a)) (value (narrow b)) }
{
    if a.m == 0 {
        return true;
    }
    if b.m == 0 {
        return false;
    }
    if a.e == b.e {
        return a.m <= b.m;
    }
    a.e < b.e
}
