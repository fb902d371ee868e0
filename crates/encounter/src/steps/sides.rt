//! Both sides' numbers together, each operation D on the lower side and U on the upper.
ghost use Rattle.std.specs.Prelude.{◌≡◌, true, false, ◌^◌};
ghost use Rattle.exact.specs.Private.Ranges.{largest_exponent, InRange, TermsIn};
ghost use Rattle.encounter.specs.Private.Held.{step_letters, step_terms, held_terms};
ghost use Rattle.encounter.specs.Private.Operations.{both, both_keeps, PairIn};
ghost use Rattle.encounter.specs.Private.Loops.{side_of, letters_of, terms_of, IsReciprocal};

use crate::arithmetic::wide::{Reciprocal, Wide, halved, over, over_by, product, sum};
use crate::state::{Letters, Terms};
use crate::steps::numbers::{LetterSet, Operations, TermSet};
use exact::Scaled;

#[derive(Clone, Copy)]
pub struct Pair {
    pub lower: Wide,
    pub upper: Wide,
}

/// r(k), and the sum of r(0) to r(k).
#[derive(Clone, Copy)]
pub struct PowerPairs {
    pub r: Pair,
    pub sum: Pair,
}

pub fn pair_of(lower: Scaled, upper: Scaled) -> Pair
    ensures { (side_of false result ≡ lower) × (side_of true result ≡ upper) }
{
    Pair {
        lower: Wide::from(lower),
        upper: Wide::from(upper),
    }
}

pub fn letter_pairs(a: Letters, b: Letters) -> LetterSet<Pair>
    ensures { (letters_of false result ≡ step_letters a) × (letters_of true result ≡ step_letters b) }
{
    LetterSet {
        u: pair_of(a.u, b.u),
        h: pair_of(a.h, b.h),
        X: pair_of(a.X, b.X),
        Y: pair_of(a.Y, b.Y),
        t: pair_of(a.t, b.t),
    }
}

pub fn term_pairs(a: Terms, b: Terms) -> TermSet<Pair>
    ensures { (terms_of false result ≡ step_terms a) × (terms_of true result ≡ step_terms b) }
{
    TermSet {
        c: pair_of(a.c, b.c),
        p: pair_of(a.p, b.p),
        v: pair_of(a.v, b.v),
        y: pair_of(a.y, b.y),
        sum: pair_of(a.sum, b.sum),
    }
}

pub fn side(up: bool, b: Pair) -> Scaled
    requires { InRange 32 (2 ^ 30) (side_of up b) }
    ensures { result ≡ side_of up b }
{
    if up {
        b.upper.narrowed()
    } else {
        b.lower.narrowed()
    }
}

pub fn side_terms(up: bool, s: TermSet<Pair>) -> Terms
    requires { TermsIn largest_exponent (terms_of up s) }
    ensures { result ≡ held_terms (terms_of up s) }
{
    Terms {
        c: side(up, s.c),
        p: side(up, s.p),
        v: side(up, s.v),
        y: side(up, s.y),
        sum: side(up, s.sum),
    }
}

/// Both sides' operations: D on the lower side, U on the upper.
#[derive(Clone, Copy)]
pub struct BothSides;

impl Operations for BothSides {
    type Number = Pair;

    type Divisor = Reciprocal;

    ghost arithmetic = { λ x. both };

    ghost within = { PairIn };

    ghost whole = { λ by. by.k };

    ghost divides = { IsReciprocal };

    ghost keeps = { λ x. both_keeps };

    fn product(self, a: Pair, b: Pair) -> Pair {
        Pair {
            lower: product(false, a.lower, b.lower).number,
            upper: product(true, a.upper, b.upper).number,
        }
    }

    fn sum(self, a: Pair, b: Pair) -> Pair {
        Pair {
            lower: sum(false, a.lower, b.lower).number,
            upper: sum(true, a.upper, b.upper).number,
        }
    }

    fn half(self, a: Pair) -> Pair {
        Pair {
            lower: halved(a.lower),
            upper: halved(a.upper),
        }
    }

    fn over(self, a: Pair, k: u64) -> Pair {
        Pair {
            lower: over(false, a.lower, k).number,
            upper: over(true, a.upper, k).number,
        }
    }

    fn divisor(self, k: u64) -> Reciprocal {
        Reciprocal::of(k)
    }

    fn over_by(self, a: Pair, by: Reciprocal) -> Pair {
        Pair {
            lower: over_by(false, a.lower, by).number,
            upper: over_by(true, a.upper, by).number,
        }
    }
}
