//! What is lost on the way to a term (request #105 of document 02): one side's letters and terms, each with whether something was lost on its way.
ghost use Rattle.std.specs.Prelude.{◌≡◌, ◌||◌, ◌^◌, ◌<◌, ◌≤◌};
ghost use Rattle.exact.specs.Arithmetic.{rounded, traced};
ghost use Rattle.exact.specs.Losses.{letter_numbers, term_numbers, operand_lost};
ghost use Rattle.exact.specs.Numbers.{largest_order};
ghost use Rattle.exact.specs.Private.Ranges.{largest_exponent, InRange, LettersIn, TermsIn};
ghost use Rattle.exact.specs.Private.Clean.{clean_letters, clean_terms};
ghost use Rattle.exact.specs.Steps.{first, next};
ghost use Rattle.encounter.specs.Private.Operations.{TracedIn, traced_keeps};
ghost use Rattle.encounter.specs.Private.Held.{step_letters, step_terms, held_letters, held_terms, set_letters, set_terms, CleanLosses};

use crate::arithmetic::traced::{clean, halved, over, product, sum};
use crate::state::{Letters, Terms};
use crate::steps::numbers::{LetterSet, Operations, TermSet};
use crate::steps::terms::next_terms;
use exact::Traced;

/// One side's operations, with losses: D where up is false, U where up is true.
#[derive(Clone, Copy)]
pub struct OneSide {
    pub up: bool,
}

impl Operations for OneSide {
    type Number = Traced;

    type Divisor = u64;

    ghost arithmetic = { λ x. traced x.up 32 };

    ghost within = { TracedIn };

    ghost whole = { λ k. k };

    ghost divides = { λ k. (0 < k) × (k ≤ 2 ^ 25) };

    ghost keeps = { λ x. traced_keeps x.up };

    fn product(self, a: Traced, b: Traced) -> Traced {
        product(self.up, a, b)
    }

    fn sum(self, a: Traced, b: Traced) -> Traced {
        sum(self.up, a, b)
    }

    fn half(self, a: Traced) -> Traced {
        halved(a)
    }

    fn over(self, a: Traced, k: u64) -> Traced {
        over(self.up, a, k)
    }

    fn divisor(self, k: u64) -> u64 {
        k
    }

    fn over_by(self, a: Traced, by: u64) -> Traced {
        over(self.up, a, by)
    }
}

/// The letters without their losses.
pub fn letter_numbers(l: LetterSet<Traced>) -> Letters
    ensures { result ≡ held_letters (letter_numbers (set_letters l)) }
{
    Letters {
        u: l.u.number,
        h: l.h.number,
        X: l.X.number,
        Y: l.Y.number,
        t: l.t.number,
    }
}

/// The terms without their losses.
pub fn term_numbers(s: TermSet<Traced>) -> Terms
    ensures { result ≡ held_terms (term_numbers (set_terms s)) }
{
    Terms {
        c: s.c.number,
        p: s.p.number,
        v: s.v.number,
        y: s.y.number,
        sum: s.sum.number,
    }
}

// Letters on whose way nothing was lost.
fn clean_letters(l: Letters) -> LetterSet<Traced>
    ensures { set_letters result ≡ clean_letters (step_letters l) }
{
    LetterSet {
        u: clean(l.u),
        h: clean(l.h),
        X: clean(l.X),
        Y: clean(l.Y),
        t: clean(l.t),
    }
}

// Terms on whose way nothing was lost.
fn clean_terms(s: Terms) -> TermSet<Traced>
    ensures { set_terms result ≡ clean_terms (step_terms s) }
{
    TermSet {
        c: clean(s.c),
        p: clean(s.p),
        v: clean(s.v),
        y: clean(s.y),
        sum: clean(s.sum),
    }
}

/// A side's terms of index 0.
pub fn first_terms(up: bool, l: LetterSet<Traced>, start: Traced) -> TermSet<Traced>
    requires { (InRange 32 177 l.u.number) × (InRange 32 177 start.number) }
    ensures { set_terms result ≡ first (traced up 32) (set_letters l) start }
{
    TermSet {
        c: start,
        p: product(up, l.u, start),
        v: start,
        y: start,
        sum: start,
    }
}

/// Whether something was lost on the way to a term, and whether it was on the way to what the next term is formed of.
#[derive(Clone, Copy)]
pub struct Losses {
    pub term: bool,
    pub operand: bool,
}

/// A side's losses, at the index of s.
pub fn losses_at(l: LetterSet<Traced>, s: TermSet<Traced>) -> Losses
    ensures { (result.term ≡ (set_terms s).c.lost) × (result.operand ≡ operand_lost (set_letters l) (set_terms s)) }
{
    Losses {
        term: s.c.lost,
        operand: l.h.lost | l.X.lost | l.Y.lost | s.p.lost | s.v.lost | s.y.lost | s.c.lost,
    }
}

/// Both sides' losses. No `BitOr`: its ghost members would say no more than the clause.
pub fn either_side(below: Losses, above: Losses) -> Losses
    ensures { (result.term ≡ (below.term || above.term)) × (result.operand ≡ (below.operand || above.operand)) }
{
    Losses {
        term: below.term | above.term,
        operand: below.operand | above.operand,
    }
}

/// A side's terms one index on, without their losses, and what is lost there, where nothing was lost before.
pub fn side_step(up: bool, l: Letters, s: Terms, n: u64) -> (Terms, Losses)
    requires { (n < largest_order) × (LettersIn (step_letters l)) × (TermsIn largest_exponent (step_terms s)) }
    ensures { (result.0 ≡ held_terms (next (rounded up 32) (step_letters l) n (step_terms s))) × CleanLosses up (step_letters l) (step_terms s) n result.1 }
{
    let w = clean_letters(l);
    let next = next_terms(OneSide { up }, w, clean_terms(s), n);
    (term_numbers(next), losses_at(w, next))
}
