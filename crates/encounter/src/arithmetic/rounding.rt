//! Whole parts, and their rounding to 32 significant bits, each with whether something is left out.
ghost use Rattle.std.specs.Prelude.{◌≡◌, cond, ◌+◌, ◌-◌, ◌*◌, ◌/◌, ◌%◌, ◌^◌, ◌≤◌, ◌<◌, ltb, pos, ◌<ℤ◌};
ghost use Rattle.std.specs.Float.Ieee.{size};
ghost use Rattle.encounter.specs.Private.Loops.{IsWhole, Fitted};

use crate::arithmetic::wide::{Rounded, Wide};

/// A whole number, which is there in either case, and whether a rest was left in forming it.
#[derive(Clone, Copy)]
pub struct Whole {
    pub part: u64,
    pub rest: bool,
}

/// How many bits n has. The contract is `size`, for four callers.
pub fn bits(n: u64) -> u64
    requires { 0 < n }
    ensures { result ≡ size n }
{
    u64::from(64 - n.leading_zeros())
}

/// n followed by t zeros. `<<` promises n × 2^t without its upper bits; here none is lost.
pub fn followed(n: u64, t: u64) -> u64
    requires { (t < 64) × (n * 2 ^ t < 2 ^ 64) }
    ensures { result ≡ n * 2 ^ t }
{
    n << t
}

// n, and k more where up is true. A function of its own, since so its callers have no cases.
fn upward(up: bool, n: u64, k: u64) -> u64
    requires { n + k < 2 ^ 64 }
    ensures { result ≡ n + cond up k 0 }
{
    if up {
        return n + k;
    }
    n
}

/// n / k, or where up is true the whole number at or above it. By `div_ceil` the rest would be tested for the quotient too; the shape
/// of the hot operations is in docs/DECISIONS.md.
pub fn divided(up: bool, n: u64, k: u64) -> Whole
    requires { (0 < k) × (n + (k - 1) < 2 ^ 64) }
    ensures { IsWhole up (n / k) (ltb 0 (n % k)) result }
{
    Whole {
        part: upward(up, n, k - 1) / k,
        rest: 0 < n % k,
    }
}

/// How many zeros follow n so that it is from 2^15 × k to below 2^16 × k.
pub fn room(n: u64, k: u64) -> u64
    requires { (0 < n) × (n < 2 ^ 48) × (2 ^ 47 ≤ k) × (k < 2 ^ 48) }
    ensures { (result < 64) × (2 ^ 15 * k ≤ n * 2 ^ result) × (n * 2 ^ result < 2 ^ 16 * k) }
{
    let t = 64 - bits(n);
    if followed(n, t) / 65536 < k {
        return t;
    }
    t - 1
}

/// n followed by t zeros and 16 more, divided by k, or where up is true the whole number at or above it.
pub fn long_division(up: bool, n: u64, t: u64, k: u64) -> Whole
    requires { (k < 2 ^ 48) × (t < 64) × (n * 2 ^ t < 2 ^ 16 * k) }
    ensures { IsWhole up (n * 2 ^ t * 65536 / k) (ltb 0 (n * 2 ^ t * 65536 % k)) result }
{
    let x = followed(n, t);
    let last = x % k * 65536;
    let rest = 0 < last % k;
    Whole {
        part: x / k * 65536 + last / k + u64::from(up & rest),
        rest,
    }
}

/// a × 2^e, for a whole part a of 32 or 33 bits: m is a, or half of it. Something is lost where a rest was left, or a last bit that is not 0 is dropped.
pub fn fit(up: bool, w: Whole, e: i64) -> Rounded
    requires { (w.part + 1 < 2 ^ 33) × (e <ℤ pos (2 ^ 32)) }
    ensures { Fitted up w e result }
{
    let a = w.part;
    // how many bits there are beyond 32
    let c = a / 4294967296;
    Rounded {
        number: Wide {
            m: upward(up, a, c) >> c,
            e: e + c as i64,
        },
        lost: w.rest | (0 < c * a % 2),
    }
}
