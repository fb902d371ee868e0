//! The scaled number of document 01, with the constants and the constructor that belong to it; a scaled number with whether something was lost on its way; the inputs of
//! an encounter, and a conjunction; a decimal; the refusals, the kinds of a record and the paper's limits. The rest is definitions (specs/) and theorems (proofs/).
#![tactic(auto)]

ghost use Rattle.std.specs.Prelude.{◌≡◌, false, ◌^◌, ◌<◌, pos, ◌-ℤ◌};
ghost use Rattle.exact.specs.Fraction.{◌≈◌, whole as whole_number};
ghost use Rattle.exact.specs.Scaled.{value};
ghost use Rattle.exact.specs.Private.Round.{round};

pub mod kinds;
pub mod refusals;

/// The limits of specs/Numbers.antt.
pub const LARGEST_LENGTH: u32 = 10000000;

pub const LARGEST_T: u32 = 64;

pub const EXPONENTIAL_CUT: u64 = 256;

pub const LARGEST_ORDER: u32 = 1024;

pub const LARGEST_SCRIPT: usize = 65536;

pub const LOWEST_EXPONENT: i32 = -1000000000;

pub const DAYS_A_WEEK: usize = 7;

pub const PLACES_A_DAY: usize = 8;

/// "Inputs are whole centimetres: combined radius R, larger standard deviation sx, smaller sy, mean miss xm and ym."
#[repr(C)]
#[derive(Clone, Copy, Default)]
pub struct Encounter {
    pub R: u32,
    pub sx: u32,
    pub sy: u32,
    pub xm: i32,
    pub ym: i32,
}

/// Request #104: an encounter with an object number and a time of closest approach, "both unsigned 32-bit, the time in minutes from the epoch that the site chooses."
#[repr(C)]
#[derive(Clone, Copy)]
pub struct Conjunction {
    pub encounter: Encounter,
    pub object: u32,
    pub time: u32,
}

/// m × 2^e: "e is a signed 32-bit number."
#[repr(C)]
#[derive(Clone, Copy, Default)]
pub struct Scaled {
    pub m: u32,
    pub e: i32,
}

/// Request #105: a number, which is there in either case, and whether something was lost on its way.
#[derive(Clone, Copy)]
pub struct Traced {
    pub number: Scaled,
    pub lost: bool,
}

/// d.ddd × 10^-power, where digits is dddd.
#[repr(C)]
#[derive(Clone, Copy)]
pub struct Decimal {
    pub digits: u32,
    pub power: u32,
}

// -t, for a t that fits. A function of its own: in place its proof was not found.
fn negated(t: u32) -> i32
    requires { t < 2 ^ 31 }
    ensures { result ≡ pos 0 -ℤ pos t }
{
    -(t as i32)
}

impl Scaled {
    pub const ZERO: Scaled = Scaled { m: 0, e: 0 };

    pub const ONE: Scaled = Scaled {
        m: 2147483648,
        e: -31,
    };

    /// The whole number n, which fits whatever it is.
    pub fn whole(n: u32) -> Scaled
        ensures { (result ≡ round false 32 (whole_number n)) × (value result ≈ whole_number n) }
    {
        if n == 0 {
            return Scaled::ZERO;
        }
        let z = n.leading_zeros();
        Scaled {
            m: n << z,
            e: negated(z),
        }
    }
}
