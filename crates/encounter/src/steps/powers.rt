//! The exponentials of both sides, round by round.
ghost use Rattle.std.specs.Prelude.{◌≡◌, Bool, true, false, suc, pred, ◌<◌};
ghost use Rattle.exact.specs.declared.Encounter.{Encounter};
ghost use Rattle.exact.specs.Numbers.{exponential_cut};
ghost use Rattle.exact.specs.Private.Ranges.{largest_exponent, InRange};
ghost use Rattle.exact.specs.Steps.{exponential_sum, r256 as r256_of};
ghost use Rattle.encounter.specs.Private.Held.{HasT};
ghost use Rattle.encounter.specs.Private.Loops.{side_of, next_r, PowersAt};

use crate::steps::numbers::Operations;
use crate::steps::sides::{BothSides, Pair, PowerPairs, pair_of, side};
use exact::{EXPONENTIAL_CUT, Scaled};

// The last k that is summed.
const LAST: u64 = EXPONENTIAL_CUT - 1;

// r(k + 1) from r(k).
fn next_r(t: Pair, r: Pair, k: u64) -> Pair
    requires { (k < exponential_cut) × ((up : Bool) → (InRange 32 387 (side_of up t)) × (InRange 32 largest_exponent (side_of up r))) }
    ensures { (up : Bool) → side_of up result ≡ next_r up k (side_of up r) (side_of up t) }
{
    BothSides.over(BothSides.product(r, t), k + 1)
}

// No struct with the encounter as a ghost field: it was proved, and a begin took 1.18 to 1.26 times as long (docs/DECISIONS.md). One round (request #102 of document 02):
// r and the sum of both sides, from an encounter's numbers at k to the same encounter's at k + 1.
fn one_round(t: Pair, w: PowerPairs, k: u64) -> PowerPairs
    requires { (k < exponential_cut) × ((E : Encounter) × PowersAt E k t w) }
    ensures { (E : Encounter) → PowersAt E k t w → PowersAt E (suc k) t result }
{
    let r = next_r(t, w.r, k);
    let sum = BothSides.sum(w.sum, r);
    PowerPairs { r, sum }
}

// From the numbers at k = 0 to those at k = LAST.
fn rounds(t: Pair, first: PowerPairs) -> PowerPairs
    requires { (E : Encounter) × PowersAt E 0 t first }
    ensures { (E : Encounter) → PowersAt E 0 t first → PowersAt E (pred exponential_cut) t result }
{
    let mut w = first;
    for k in 0..LAST {
        w = one_round(t, w, k);
    }
    w
}

/// Both exponential sums, and the upper r(256).
#[derive(Clone, Copy)]
pub struct Exponentials {
    pub lower: Scaled,
    pub upper: Scaled,
    pub r256: Scaled,
}

/// From both sides' t. The last round is for r(256) alone; it stands apart, since a round that is called at one place is compiled into its loop, and a begin then
/// takes longer.
pub fn exponential_sums(a: Scaled, b: Scaled) -> Exponentials
    requires { (E : Encounter) × HasT E a b }
    ensures { (E : Encounter) → HasT E a b → (result.lower ≡ exponential_sum false E) × (result.upper ≡ exponential_sum true E) × (result.r256 ≡ r256_of E) }
{
    let t = pair_of(a, b);
    let one = pair_of(Scaled::ONE, Scaled::ONE);
    let w = rounds(t, PowerPairs { r: one, sum: one });
    let last = one_round(t, w, LAST);
    Exponentials {
        lower: side(false, w.sum),
        upper: side(true, w.sum),
        r256: side(true, last.r),
    }
}
