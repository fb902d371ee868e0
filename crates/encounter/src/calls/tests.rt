//! Tests 3 to 6, on the inputs of a begin, test 7, on the upper t, and tests 11 and 23, on M.
ghost use Rattle.std.specs.Prelude.{◌≡◌, ◌+◌, ◌≤◌};
ghost use Rattle.exact.specs.Fraction.{whole as whole_number, ◌⊗◌, at_most};
ghost use Rattle.exact.specs.Kinds.{refusal_in};
ghost use Rattle.exact.specs.Numbers.{largest_t, largest_order};
ghost use Rattle.exact.specs.Scaled.{value};
ghost use Rattle.exact.specs.Private.Ranges.{tests_3_to_6, InRange};
ghost use Rattle.exact.specs.Refusals.{outside as is_outside, miss_outside as is_far};

use crate::arithmetic::scaled::{at_most, doubled};
use exact::refusals::Refusal;
use exact::{Encounter, LARGEST_LENGTH, LARGEST_ORDER, LARGEST_T, Scaled};

// 0 or above 10,000,000.
#[tactic(auto, unfolding(exact::specs::Refusals::outside))]
fn outside(n: u32) -> bool
    ensures { result ≡ is_outside n }
{
    n == 0 || LARGEST_LENGTH < n
}

// Outside -10,000,000 to 10,000,000.
#[tactic(auto, unfolding(exact::specs::Refusals::miss_outside))]
fn far(z: i32) -> bool
    ensures { result ≡ is_far z }
{
    LARGEST_LENGTH < z.unsigned_abs()
}

/// Tests 3 to 6: the first that refuses.
#[tactic(auto, unfolding(exact::specs::Private::Ranges::tests_3_to_6, exact::specs::Refusals::refuses_3, exact::specs::Refusals::refuses_4, exact::specs::Refusals::refuses_5, exact::specs::Refusals::refuses_6))]
pub fn test_inputs(E: Encounter) -> Result<(), Refusal>
    ensures { refusal_in result ≡ tests_3_to_6 E 0 }
{
    if outside(E.R) {
        return Err(Refusal::Radius);
    }
    if outside(E.sx) || outside(E.sy) {
        return Err(Refusal::Sigma);
    }
    if E.sx < E.sy {
        return Err(Refusal::LargerSigma);
    }
    if far(E.xm) || far(E.ym) {
        return Err(Refusal::Miss);
    }
    Ok(())
}

/// Whether test 7 passes: t is at most 64.
pub fn passes_test_7(t: Scaled) -> bool
    requires { InRange 32 387 t }
    ensures { result ≡ at_most (value t) (whole_number largest_t) }
{
    at_most(t, Scaled::whole(LARGEST_T))
}

/// Whether test 23 passes at order n: 2M is at most n + 2.
pub fn passes_test_23(M: Scaled, n: u32) -> bool
    requires { (InRange 32 400 M) × (n ≤ largest_order) }
    ensures { result ≡ at_most (whole_number 2 ⊗ value M) (whole_number (n + 2)) }
{
    at_most(doubled(M), Scaled::whole(n + 2))
}

/// Whether test 11 passes: test 23 does at the largest order.
pub fn passes_test_11(M: Scaled) -> bool
    requires { InRange 32 400 M }
    ensures { result ≡ at_most (whole_number 2 ⊗ value M) (whole_number (largest_order + 2)) }
{
    passes_test_23(M, LARGEST_ORDER)
}
