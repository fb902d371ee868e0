//! The sum of two scaled numbers and the greater of them, by the private arithmetic, for any numbers: for crate `week` (request #111 of document 02).
ghost use Rattle.std.specs.Prelude.{◌≡◌};
ghost use Rattle.encounter.specs.Sums.{in_limits, sum_in_limits, greater_in_limits};

use crate::arithmetic::scaled;
use crate::arithmetic::scaled::at_most;
use exact::Scaled;

// The largest exponent.
const LIMIT: i32 = 1 << 28;

// Whether x is a scaled number with e from -2^28 to 2^28. Apart from test 10 of crate `division`, which has another limit of e (docs/DECISIONS.md).
#[tactic(auto, unfolding(crate::specs::Sums::in_limits, exact::specs::Refusals::scaled_form))]
fn in_limits(x: Scaled) -> bool
    ensures { result ≡ in_limits x }
{
    if x.e < -LIMIT || LIMIT < x.e {
        return false;
    }
    if x.m == 0 { x.e == 0 } else { 1 << 31 <= x.m }
}

/// D or U of a + b, for two scaled numbers with e from -2^28 to 2^28; zero for all others, as `sum_in_limits` has it. Callers take `week_ends` of crate `week`, whose
/// numbers are never others.
#[tactic(auto, unfolding(crate::specs::Sums::sum_in_limits, exact::specs::Arithmetic::rounding))]
pub fn sum(up: bool, a: Scaled, b: Scaled) -> Scaled
    ensures { result ≡ sum_in_limits up a b }
{
    if in_limits(a) && in_limits(b) {
        scaled::sum(up, a, b).number
    } else {
        Scaled::ZERO
    }
}

/// The greater of a and b, for two such numbers; zero for all others, as `greater_in_limits` has it. Not `Ord::max`: there is no order outside the limits.
#[tactic(auto, unfolding(crate::specs::Sums::greater_in_limits, crate::specs::Sums::greater))]
pub fn greater(a: Scaled, b: Scaled) -> Scaled
    ensures { result ≡ greater_in_limits a b }
{
    if in_limits(a) && in_limits(b) {
        if at_most(a, b) { b } else { a }
    } else {
        Scaled::ZERO
    }
}
