//! Request #107 of document 02: the division of a scaled number by a whole number, for everyone.
#![tactic(auto)]

ghost use Rattle.std.specs.Prelude.{◌≡◌};
ghost use Rattle.exact.specs.Refusals.{refuses_10};
ghost use Rattle.division.specs.Division.{divided, Says};
ghost use Rattle.division.specs.Claims.{Claims};

use encounter::mantissas::over;
use exact::refusals::Refusal;
use exact::{LOWEST_EXPONENT, Scaled};

// Test 10.
#[tactic(auto, using(crate::proofs::Refusing::by_zero, crate::proofs::Refusing::of_zero, crate::proofs::Refusing::of_small, crate::proofs::Refusing::of_normal))]
fn refused(number: Scaled, divisor: u32) -> bool
    ensures { result ≡ refuses_10 number divisor }
{
    if divisor == 0 {
        return true;
    }
    if number.m == 0 {
        return number.e != 0;
    }
    number.m < 2147483648 || number.e < LOWEST_EXPONENT
}

/// D (up is false) or U (up is true) of the exact quotient: that of the mantissa, with its exponent moved by the number's. Refused as 10.
#[tactic(auto, using(crate::proofs::Dividing::claims, crate::proofs::Dividing::refusing, crate::proofs::Dividing::answer_zero, crate::proofs::Dividing::sum_fits, crate::proofs::Dividing::answer_normal, crate::proofs::Dividing::says))]
pub fn divide(up: bool, number: Scaled, divisor: u32) -> Result<Scaled, Refusal>
    ensures value { (result ≡ divided up number divisor) × Says up number divisor result }
    ensures claims { Claims }
{
    if refused(number, divisor) {
        return Err(Refusal::Quotient);
    }
    if number.m == 0 {
        return Ok(Scaled::ZERO);
    }
    let q = over(up, number.m, divisor);
    Ok(Scaled {
        m: q.m,
        e: number.e + q.e,
    })
}
