//! What the steps are formed of, whatever the numbers: letters, terms and operations. The numbers are one side's with their losses (`Traced`, losses.rt) or both
//! sides' (`Pair`, sides.rt).
ghost use Rattle.std.specs.Prelude.{◌≡◌, ℕ, ◌^◌, ◌≤◌, ◌<◌};
ghost use Rattle.exact.specs.Arithmetic.{Arithmetic};
ghost use Rattle.exact.proofs.Growth.{Keeps};

/// A side's letters. The conversions of letters and of terms are written out: a `map` over a closure would need a clause for each of its five calls.
#[derive(Clone, Copy)]
pub struct LetterSet<T> {
    pub u: T,
    pub h: T,
    pub X: T,
    pub Y: T,
    pub t: T,
}

/// c, p, v and y of one index, and the sum to there.
#[derive(Clone, Copy)]
pub struct TermSet<T> {
    pub c: T,
    pub p: T,
    pub v: T,
    pub y: T,
    pub sum: T,
}

/// The operations of an arithmetic, on numbers whose exponents are within 2^28.
pub trait Operations: Copy {
    type Number: Copy;

    // What every division by one whole number has in common.
    type Divisor: Copy;

    ghost arithmetic: { Self → Arithmetic Self.Number };

    // The exponents of a number are from -B to B.
    ghost within: { ℕ → Self.Number → Type 0 };

    // The whole number that a divisor divides by.
    ghost whole: { Self.Divisor → ℕ };

    // What holds of every divisor that is formed.
    ghost divides: { Self.Divisor → Type 0 };

    // a × b.
    fn product(self, a: Self::Number, b: Self::Number) -> Self::Number
        requires { (within (2 ^ 28) a) × (within (2 ^ 28) b) }
        ensures { result ≡ (arithmetic self).product a b };

    // a + b.
    fn sum(self, a: Self::Number, b: Self::Number) -> Self::Number
        requires { (within (2 ^ 28) a) × (within (2 ^ 28) b) }
        ensures { result ≡ (arithmetic self).sum a b };

    // a / 2, exactly.
    fn half(self, a: Self::Number) -> Self::Number
        requires { within (2 ^ 28) a }
        ensures { result ≡ (arithmetic self).half a };

    // a / k.
    fn over(self, a: Self::Number, k: u64) -> Self::Number
        requires { (within (2 ^ 28) a) × (0 < k) × (k < 2 ^ 32) }
        ensures { result ≡ (arithmetic self).quotient a k };

    fn divisor(self, k: u64) -> Self::Divisor
        requires { (0 < k) × (k ≤ 2 ^ 25) }
        ensures { (whole result ≡ k) × (divides result) };

    // a / k, by the divisor of k.
    fn over_by(self, a: Self::Number, by: Self::Divisor) -> Self::Number
        requires { (within (2 ^ 28) a) × (divides by) }
        ensures { result ≡ (arithmetic self).quotient a (whole by) };

    ghost keeps: { (x : Self) → Keeps (arithmetic x) within };
}
