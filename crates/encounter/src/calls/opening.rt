//! The session of an accepted encounter at order 1, without object and time.
ghost use Rattle.std.specs.Prelude.{◌≡◌, true, false};
ghost use Rattle.exact.specs.Private.Ranges.{Bounds};
ghost use Rattle.exact.specs.Refusals.{Accepted};
ghost use Rattle.exact.specs.Steps.{exponential_sum, M as MOf};
ghost use Rattle.exact.specs.Losses.{traced_letters, traced_terms, term_lost, operand_lost};
ghost use Rattle.encounter.specs.Session.{side, state, no_object};
ghost use Rattle.encounter.specs.Private.Held.{set_letters};

use crate::state::{Session, Side};
use crate::steps::letters::start;
use crate::steps::losses::{
    Losses, either_side, first_terms, letter_numbers, losses_at, term_numbers,
};
use crate::steps::numbers::LetterSet;
use crate::steps::powers::exponential_sums;
use crate::steps::terms::first_tail;
use exact::{Encounter, Scaled, Traced};

// A side at order 1, from its letters and its exponential sum, and its losses.
fn open_side(up: bool, E: Encounter, l: LetterSet<Traced>, exponential: Scaled) -> (Side, Losses)
    requires { (Bounds E) × (set_letters l ≡ traced_letters up E) × (exponential ≡ exponential_sum up E) }
    ensures { (result.0 ≡ side up E 1) × (result.1.term ≡ term_lost up E 0) × (result.1.operand ≡ operand_lost (traced_letters up E) (traced_terms up E 0)) }
{
    let s = first_terms(up, l, start(up, E));
    let side = Side {
        letters: letter_numbers(l),
        exponential,
        terms: term_numbers(s),
    };
    (side, losses_at(l, s))
}

/// From both sides' letters and M. The upper letters and M were formed for tests 7 and 11.
pub fn opened(
    E: Encounter,
    below: LetterSet<Traced>,
    above: LetterSet<Traced>,
    M: Scaled,
) -> Session
    requires { (Accepted E) × (set_letters below ≡ traced_letters false E) × (set_letters above ≡ traced_letters true E) × (M ≡ MOf E) }
    ensures { result ≡ state (no_object E) 1 }
{
    let sums = exponential_sums(below.t.number, above.t.number);
    let (lower, one) = open_side(false, E, below, sums.lower);
    let (upper, other) = open_side(true, E, above, sums.upper);
    let lost = either_side(one, other);
    Session {
        encounter: E,
        object: 0,
        time: 0,
        N: 1,
        lower,
        upper,
        r256: sums.r256,
        M,
        d: first_tail(M, upper.terms.c),
        exact: u32::from(!lost.term),
        lossless: u32::from(!lost.operand),
    }
}
