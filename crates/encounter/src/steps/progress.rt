//! Both sides' terms and the upper d, taken on term by term.
ghost use Rattle.std.specs.Prelude.{◌≡◌, true, false, ◌+◌, ◌-◌, ◌≤◌};
ghost use Rattle.exact.specs.Numbers.{largest_order};
ghost use Rattle.encounter.specs.Private.Held.{progress, Begun};

use crate::arithmetic::wide::Wide;
use crate::state::{Session, Terms};
use crate::steps::sides::{BothSides, letter_pairs, side_terms, term_pairs};
use crate::steps::terms::{next_tail, next_terms};
use exact::Scaled;

/// What the terms of an add change.
#[derive(Clone, Copy)]
pub struct Progress {
    pub lower: Terms,
    pub upper: Terms,
    pub d: Scaled,
}

/// `count` terms more.
pub fn advance(s: Session, count: u32) -> Progress
    requires { (Begun s) × (s.N + count ≤ largest_order) }
    ensures { result ≡ progress s.encounter (s.N + count - 1) }
{
    let l = letter_pairs(s.lower.letters, s.upper.letters);
    let M = Wide::from(s.M);
    let mut t = term_pairs(s.lower.terms, s.upper.terms);
    let mut d = Wide::from(s.d);
    // as in `counts_after`: a function for the two would have its results tied back in both proofs
    let first = (s.N - 1) as u64;
    let limit = (s.N + count - 1) as u64;
    for n in first..limit {
        t = next_terms(BothSides, l, t, n);
        d = next_tail(M, d, n + 1);
    }
    Progress {
        lower: side_terms(false, t),
        upper: side_terms(true, t),
        d: d.narrowed(),
    }
}
