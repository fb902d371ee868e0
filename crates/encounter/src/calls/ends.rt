//! The two ends of a session's bracket, its class, and test 23.
ghost use Rattle.std.specs.Prelude.{◌≡◌, not, ◌^◌};
ghost use Rattle.exact.specs.Private.Ranges.{InRange};
ghost use Rattle.exact.specs.Steps.{lower_end, upper_end};
ghost use Rattle.exact.specs.Refusals.{refuses_23};
ghost use Rattle.encounter.specs.Session.{class_of};
ghost use Rattle.encounter.specs.Private.Held.{Begun};

use crate::arithmetic::scaled::{at_most, doubled, quotient, sum};
use crate::calls::tests::passes_test_23;
use crate::state::{Class, Session};
use exact::Scaled;

/// The lower sum over the upper exponential with its tail. The two ends have different sums and tails, so they are two functions.
pub fn lower_end(s: Session) -> Scaled
    requires { Begun s }
    ensures { result ≡ lower_end s.encounter s.N }
{
    let under = sum(true, s.upper.exponential, doubled(s.r256));
    quotient(false, s.lower.terms.sum, under.number).number
}

/// The upper sum with its tail over the lower exponential.
pub fn upper_end(s: Session) -> Scaled
    requires { Begun s }
    ensures { result ≡ upper_end s.encounter s.N }
{
    let over = sum(true, s.upper.terms.sum, doubled(s.d));
    quotient(true, over.number, s.lower.exponential).number
}

// U(1/10,000): a scaled number × 10,000 is at least 1 just where it is at least this.
const THRESHOLD: Scaled = Scaled {
    m: 3518437209,
    e: -45,
};

/// The class: alert by the lower end, clear by the upper, otherwise open.
#[tactic(auto, using(crate::proofs::calls::Threshold::tells_alert, crate::proofs::calls::Threshold::tells_open, crate::proofs::calls::Threshold::tells_clear))]
pub fn classify(lower: Scaled, upper: Scaled) -> Class
    requires { (InRange 32 (2 ^ 28) lower) × (InRange 32 (2 ^ 28) upper) }
    ensures { result ≡ class_of lower upper }
{
    if at_most(THRESHOLD, lower) {
        Class::Alert
    } else if at_most(THRESHOLD, upper) {
        Class::Open
    } else {
        Class::Clear
    }
}

/// Whether test 23 passes.
pub fn may_read(s: Session) -> bool
    requires { Begun s }
    ensures { result ≡ not (refuses_23 s.encounter s.N) }
{
    passes_test_23(s.M, s.N)
}
