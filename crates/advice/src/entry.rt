//! The entry for an M that is taken up to a whole number.
ghost use Rattle.std.specs.Prelude.{◌≡◌};
ghost use Rattle.exact.specs.Integer.{pos_part};
ghost use Rattle.exact.specs.Scaled.{value};
ghost use Rattle.advice.specs.Advice.{taken_up, entry_for};
ghost use Rattle.advice.specs.Private.Order.{IsEntry};
ghost use Rattle.advice.specs.Private.Positive.{Positive};

use crate::table::{LARGEST_M, order_for};
use exact::Scaled;

// x, whose e is not above 0, taken up to a whole number.
#[tactic(auto, using(crate::proofs::TakenUp::by_size, crate::proofs::TakenUp::by_ceiling))]
fn taken_up(x: Scaled) -> u64
    requires { Positive x × (pos_part x.e ≡ 0) }
    ensures { result ≡ taken_up (value x) }
{
    let n = x.e.unsigned_abs();
    if n > 31 {
        return 1;
    }
    u64::from(x.m).div_ceil(1u64 << n)
}

/// The entry for x taken up to a whole number, if the table has one.
#[tactic(auto, using(crate::proofs::TakenUp::above_0, crate::proofs::TakenUp::not_above_0, crate::proofs::TakenUp::one_at_least, crate::proofs::TakenUp::entry_none, crate::proofs::TakenUp::entry_some))]
pub fn entry_for(x: Scaled) -> Option<u16>
    requires { Positive x }
    ensures { (result ≡ entry_for (taken_up (value x))) × IsEntry (taken_up (value x)) result }
{
    if x.e > 0 {
        return None;
    }
    let M = taken_up(x);
    if M > LARGEST_M {
        return None;
    }
    Some(order_for(M))
}
