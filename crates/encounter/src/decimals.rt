//! A scaled number as four significant digits and a power of ten (request #103 of document 02).
ghost use Rattle.std.specs.Prelude.{◌≡◌, false, MatchOption, pred, ◌+◌, ◌*◌, ◌/◌, ◌^◌, ◌≤◌, ◌<◌, pos, ◌-ℤ◌};
ghost use Rattle.exact.specs.declared.Scaled.{Scaled as Number};
ghost use Rattle.exact.specs.Integer.{pos_part};
ghost use Rattle.exact.specs.Fraction.{◌≈◌};
ghost use Rattle.exact.specs.Scaled.{value, Normal};
ghost use Rattle.exact.specs.Decimals.{table_length, times_power, reaches, least_power, floor, digits_of, at_power, too_small, decimal_of, Printed, Found, Near};
ghost use Rattle.exact.specs.Private.Ranges.{InRange};
ghost use Rattle.encounter.specs.Private.Loops.{narrow, InBinade};

mod tens;

use crate::arithmetic::wide::{Wide, product};
use crate::decimals::tens::{POWERS, power_of_ten};
use exact::{Decimal, Scaled};

const ZERO: Decimal = Decimal {
    digits: 0,
    power: 0,
};

// How many bits a number with this exponent has below the point.
fn below_point(e: i64) -> u64
    ensures { result ≡ pos_part (pos 0 -ℤ e) }
{
    e.min(0).unsigned_abs()
}

// x with a mantissa of 32 bits, for an x that is not zero.
fn normal(x: Scaled) -> Wide
    requires { 0 < x.m }
    ensures { (Normal 32 (narrow result)) × (InRange 32 (2 ^ 32) (narrow result)) × (value (narrow result) ≈ value x) }
{
    let z = x.m.leading_zeros();
    Wide {
        m: u64::from(x.m << z),
        e: i64::from(x.e) - i64::from(z),
    }
}

// The whole part of p, for p below 2^32.
fn whole_part(p: Wide) -> u64
    requires { (InRange 32 (2 ^ 28) (narrow p)) × (pos_part p.e ≡ 0) }
    ensures { result ≡ floor (value (narrow p)) }
{
    let n = below_point(p.e);
    if n < 64 { p.m >> n } else { 0 }
}

// The whole part of x times the table's 10^k, where the power before does not reach 1,000.
fn whole_at(up: bool, x: Wide, k: usize) -> u64
    requires { (InRange 32 174 (narrow x)) × (0 < k) × (k < table_length) × (reaches up (narrow x) (pred k) ≡ false) }
    ensures { result ≡ floor (value (times_power up (narrow x) k)) }
{
    let p = product(up, x, Wide::from(power_of_ten(up, k)));
    whole_part(p.number)
}

// For a number from 2^-(s+1) to below 2^-s: where to begin to look for the least power. 1233/4096 is just below the decimal logarithm of 2.
fn first_power(s: u64) -> usize
    requires { s ≤ 142 }
    ensures { result ≡ 3 + (s * 1233 + 4095) / 4096 }
{
    (3 + (s * 1233 + 4095) / 4096) as usize
}

// The least power, and the whole part of the product that reaches 1,000 there.
#[derive(Clone, Copy)]
struct Reaching {
    k: usize,
    whole: u64,
}

// The least power of a number from 2^-(s+1) to below 2^-s, where the table has one.
fn least_power_of(up: bool, x: Wide, s: u64) -> Option<Reaching>
    requires { InBinade s (narrow x) }
    ensures { MatchOption result (least_power up (narrow x) ≡ table_length) (λ r. (r.k < table_length) × (r.k ≡ least_power up (narrow x)) × (r.whole ≡ floor (value (times_power up (narrow x) r.k)))) }
{
    for k in first_power(s)..POWERS {
        let whole = whole_at(up, x, k);
        if 1000 <= whole {
            return Some(Reaching { k, whole });
        }
    }
    None
}

// The digits of a whole part.
#[tactic(auto, unfolding(exact::specs::Decimals::digits_of))]
fn digits(up: bool, whole: u64) -> u64
    requires { whole ≤ 10000 }
    ensures { result ≡ digits_of up whole }
{
    if up { whole + 1 } else { whole.min(9999) }
}

// The digits n at the power k.
fn decimal_at(k: usize, n: u64) -> Decimal
    requires { (3 ≤ k) × (k < table_length) × (n ≤ 10001) × (10000 ≤ n → 4 ≤ k) }
    ensures { result ≡ at_power k n }
{
    if n < 10000 {
        Decimal {
            digits: n as u32,
            power: (k - 3) as u32,
        }
    } else {
        Decimal {
            digits: (n - 9000) as u32,
            power: (k - 4) as u32,
        }
    }
}

// A number that is not zero and for which the table has no power.
fn below_the_table(up: bool) -> Decimal
    ensures { (x : Number) → 0 < x.m → result ≡ too_small up x }
{
    if up {
        Decimal {
            digits: 1000,
            power: 43,
        }
    } else {
        ZERO
    }
}

// A number from 2^-(s+1) to below 2^-s, in decimal.
fn below_one(up: bool, x: Wide, s: u64) -> Decimal
    requires { InBinade s (narrow x) }
    ensures { result ≡ decimal_of up (narrow x) }
{
    match least_power_of(up, x, s) {
        Some(r) => decimal_at(r.k, digits(up, r.whole)),
        None => below_the_table(up),
    }
}

/// x in decimal, as a lower end or, where up is true, as an upper one: four significant digits and a power of ten. It takes any m and e.
pub fn to_decimal(up: bool, x: Scaled) -> Decimal
    ensures { (result ≡ decimal_of up x) × Printed up x result × (Found up x → Near x result) }
{
    if x.m == 0 {
        return ZERO;
    }
    // y is x, with n bits below the point: it is 1 or more where n is at most 31, and below 2^-143, out of the table's reach, where n is above 174
    let y = normal(x);
    let n = below_point(y.e);
    if n < 32 {
        return Decimal {
            digits: 1000,
            power: 0,
        };
    }
    if 174 < n {
        return below_the_table(up);
    }
    below_one(up, y, n - 32)
}
