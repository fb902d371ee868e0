//! A term more, of one side with its losses or of both sides; and the upper tail term d.
ghost use Rattle.std.specs.Prelude.{◌≡◌, true, ◌+◌, ◌*◌, ◌≤◌, ◌<◌};
ghost use Rattle.exact.specs.Numbers.{largest_order};
ghost use Rattle.exact.specs.Arithmetic.{rounded};
ghost use Rattle.exact.specs.Private.Ranges.{largest_exponent, InRange, LettersAll, TermsAll};
ghost use Rattle.exact.specs.Steps.{next_c, next, next_d};
ghost use Rattle.encounter.specs.Private.Held.{set_letters, set_terms};
ghost use Rattle.encounter.specs.Private.Loops.{narrow};

use crate::arithmetic::wide::{Wide, over, product};
use crate::steps::numbers::{LetterSet, Operations, TermSet};
use exact::Scaled;

// c(n + 1), where hv is h × v(n). The premises are of the parameters of `next_c` and `next`, which are no struct in the definitions either.
fn next_term<A: Operations>(
    x: A,
    l: LetterSet<A::Number>,
    s: TermSet<A::Number>,
    hv: A::Number,
    n: u64,
) -> A::Number
    requires { (n < largest_order) × (LettersAll A.within (set_letters l)) × (TermsAll A.within largest_exponent (set_terms s)) × (hv ≡ (A.arithmetic x).product l.h s.v) }
    ensures { result ≡ next_c (A.arithmetic x) (set_letters l) n (set_terms s) }
{
    let a = x.sum(s.p, x.half(hv));
    let b = x.sum(a, x.product(l.X, s.y));
    let all = x.sum(b, x.product(l.Y, s.c));
    x.over(all, (n + 1) * (n + 2))
}

/// The terms of index n + 1 from those of index n.
pub fn next_terms<A: Operations>(
    x: A,
    l: LetterSet<A::Number>,
    s: TermSet<A::Number>,
    n: u64,
) -> TermSet<A::Number>
    requires { (n < largest_order) × (LettersAll A.within (set_letters l)) × (TermsAll A.within largest_exponent (set_terms s)) }
    ensures { set_terms result ≡ next (A.arithmetic x) (set_letters l) n (set_terms s) }
{
    let hv = x.product(l.h, s.v);
    let hy = x.product(l.h, s.y);
    let by = x.divisor(n + 2);
    let c = next_term(x, l, s, hv, n);
    let p = x.product(l.u, x.sum(c, x.over_by(s.p, by)));
    let v = x.sum(c, x.over_by(hv, by));
    let y = x.sum(v, x.over_by(hy, by));
    TermSet {
        c,
        p,
        v,
        y,
        sum: x.sum(s.sum, c),
    }
}

/// d(n + 1) from d(n).
pub fn next_tail(M: Wide, d: Wide, n: u64) -> Wide
    requires { (n ≤ largest_order) × (InRange 32 400 (narrow M)) × (InRange 32 largest_exponent (narrow d)) }
    ensures { narrow result ≡ next_d (rounded true 32) (narrow M) n (narrow d) }
{
    let x = product(true, d, M).number;
    over(true, x, n + 2).number
}

/// d(1) from d(0), which is c(0).
pub fn first_tail(M: Scaled, c: Scaled) -> Scaled
    requires { (InRange 32 400 M) × (InRange 32 177 c) }
    ensures { result ≡ next_d (rounded true 32) M 0 c }
{
    next_tail(Wide::from(M), Wide::from(c), 0).narrowed()
}
