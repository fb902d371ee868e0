//! A scaled number as a double, and whether it is 1 or more.
ghost use Rattle.std.specs.Prelude.{◌≡◌, ◌+◌, ◌≤◌};
ghost use Rattle.exact.specs.Integer.{pos_part, neg_part};
ghost use Rattle.exact.specs.Fraction.{whole, at_most};
ghost use Rattle.exact.specs.Scaled.{value, IsScaled};
ghost use Rattle.exact.specs.Private.Ranges.{InRange};
ghost use Rattle.host.specs.Doubles.{as_double};
ghost use Rattle.host.specs.Private.Fitting.{double_range};

use exact::Scaled;

// e + 1053: one less than the exponent's field of the double. A function of its own for its contract, which tells a wrong field by itself.
fn field(e: i32) -> u32
    requires { (pos_part e ≤ double_range) × (neg_part e ≤ double_range) }
    ensures { result + neg_part e ≡ pos_part e + 1053 }
{
    (e + 1053) as u32
}

/// The double that is x: the field in its place, from bit 52 on, and m from bit 21 on. m's highest bit is bit 52, so it adds one to the field.
#[tactic(auto, using(crate::proofs::Exactly::zero_assembled, crate::proofs::Exactly::field_small, crate::proofs::Exactly::is_double, crate::proofs::Exactly::is_number, exact::proofs::Operations::none))]
pub fn double_of(x: Scaled) -> f64
    requires { InRange 32 double_range x }
    ensures { result ≡ as_double x }
{
    if x.m == 0 {
        return 0.0;
    }
    let k = u64::from(field(x.e));
    let q = u64::from(x.m) * 2097152;
    f64::from_bits(k * 4503599627370496 + q)
}

/// Whether x is 1 or more: m has 32 bits, so it is so where e is above -32.
#[tactic(auto, using(crate::proofs::Cases::zero_below, crate::proofs::Cases::one_or_more))]
pub fn one_or_more(x: Scaled) -> bool
    requires { IsScaled 32 x }
    ensures { result ≡ at_most (whole 1) (value x) }
{
    x.m != 0 && x.e > -32
}
