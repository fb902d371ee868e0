//! The powers of ten from 10^0 to 10^46, each rounded down and rounded up: constant arrays, as the papers name them.
ghost use Rattle.std.specs.Prelude.{◌≡◌, ◌<◌};
ghost use Rattle.exact.specs.Decimals.{table_length, entry};

use exact::Scaled;

/// How many entries the table has.
pub const POWERS: usize = 47;

// D(10^k).
static LOWER: [Scaled; POWERS] = [
    Scaled {
        m: 2147483648,
        e: -31,
    },
    Scaled {
        m: 2684354560,
        e: -28,
    },
    Scaled {
        m: 3355443200,
        e: -25,
    },
    Scaled {
        m: 4194304000,
        e: -22,
    },
    Scaled {
        m: 2621440000,
        e: -18,
    },
    Scaled {
        m: 3276800000,
        e: -15,
    },
    Scaled {
        m: 4096000000,
        e: -12,
    },
    Scaled {
        m: 2560000000,
        e: -8,
    },
    Scaled {
        m: 3200000000,
        e: -5,
    },
    Scaled {
        m: 4000000000,
        e: -2,
    },
    Scaled {
        m: 2500000000,
        e: 2,
    },
    Scaled {
        m: 3125000000,
        e: 5,
    },
    Scaled {
        m: 3906250000,
        e: 8,
    },
    Scaled {
        m: 2441406250,
        e: 12,
    },
    Scaled {
        m: 3051757812,
        e: 15,
    },
    Scaled {
        m: 3814697265,
        e: 18,
    },
    Scaled {
        m: 2384185791,
        e: 22,
    },
    Scaled {
        m: 2980232238,
        e: 25,
    },
    Scaled {
        m: 3725290298,
        e: 28,
    },
    Scaled {
        m: 2328306436,
        e: 32,
    },
    Scaled {
        m: 2910383045,
        e: 35,
    },
    Scaled {
        m: 3637978807,
        e: 38,
    },
    Scaled {
        m: 2273736754,
        e: 42,
    },
    Scaled {
        m: 2842170943,
        e: 45,
    },
    Scaled {
        m: 3552713678,
        e: 48,
    },
    Scaled {
        m: 2220446049,
        e: 52,
    },
    Scaled {
        m: 2775557561,
        e: 55,
    },
    Scaled {
        m: 3469446951,
        e: 58,
    },
    Scaled {
        m: 2168404344,
        e: 62,
    },
    Scaled {
        m: 2710505431,
        e: 65,
    },
    Scaled {
        m: 3388131789,
        e: 68,
    },
    Scaled {
        m: 4235164736,
        e: 71,
    },
    Scaled {
        m: 2646977960,
        e: 75,
    },
    Scaled {
        m: 3308722450,
        e: 78,
    },
    Scaled {
        m: 4135903062,
        e: 81,
    },
    Scaled {
        m: 2584939414,
        e: 85,
    },
    Scaled {
        m: 3231174267,
        e: 88,
    },
    Scaled {
        m: 4038967834,
        e: 91,
    },
    Scaled {
        m: 2524354896,
        e: 95,
    },
    Scaled {
        m: 3155443620,
        e: 98,
    },
    Scaled {
        m: 3944304526,
        e: 101,
    },
    Scaled {
        m: 2465190328,
        e: 105,
    },
    Scaled {
        m: 3081487911,
        e: 108,
    },
    Scaled {
        m: 3851859888,
        e: 111,
    },
    Scaled {
        m: 2407412430,
        e: 115,
    },
    Scaled {
        m: 3009265538,
        e: 118,
    },
    Scaled {
        m: 3761581922,
        e: 121,
    },
];

// U(10^k).
static UPPER: [Scaled; POWERS] = [
    Scaled {
        m: 2147483648,
        e: -31,
    },
    Scaled {
        m: 2684354560,
        e: -28,
    },
    Scaled {
        m: 3355443200,
        e: -25,
    },
    Scaled {
        m: 4194304000,
        e: -22,
    },
    Scaled {
        m: 2621440000,
        e: -18,
    },
    Scaled {
        m: 3276800000,
        e: -15,
    },
    Scaled {
        m: 4096000000,
        e: -12,
    },
    Scaled {
        m: 2560000000,
        e: -8,
    },
    Scaled {
        m: 3200000000,
        e: -5,
    },
    Scaled {
        m: 4000000000,
        e: -2,
    },
    Scaled {
        m: 2500000000,
        e: 2,
    },
    Scaled {
        m: 3125000000,
        e: 5,
    },
    Scaled {
        m: 3906250000,
        e: 8,
    },
    Scaled {
        m: 2441406250,
        e: 12,
    },
    Scaled {
        m: 3051757813,
        e: 15,
    },
    Scaled {
        m: 3814697266,
        e: 18,
    },
    Scaled {
        m: 2384185792,
        e: 22,
    },
    Scaled {
        m: 2980232239,
        e: 25,
    },
    Scaled {
        m: 3725290299,
        e: 28,
    },
    Scaled {
        m: 2328306437,
        e: 32,
    },
    Scaled {
        m: 2910383046,
        e: 35,
    },
    Scaled {
        m: 3637978808,
        e: 38,
    },
    Scaled {
        m: 2273736755,
        e: 42,
    },
    Scaled {
        m: 2842170944,
        e: 45,
    },
    Scaled {
        m: 3552713679,
        e: 48,
    },
    Scaled {
        m: 2220446050,
        e: 52,
    },
    Scaled {
        m: 2775557562,
        e: 55,
    },
    Scaled {
        m: 3469446952,
        e: 58,
    },
    Scaled {
        m: 2168404345,
        e: 62,
    },
    Scaled {
        m: 2710505432,
        e: 65,
    },
    Scaled {
        m: 3388131790,
        e: 68,
    },
    Scaled {
        m: 4235164737,
        e: 71,
    },
    Scaled {
        m: 2646977961,
        e: 75,
    },
    Scaled {
        m: 3308722451,
        e: 78,
    },
    Scaled {
        m: 4135903063,
        e: 81,
    },
    Scaled {
        m: 2584939415,
        e: 85,
    },
    Scaled {
        m: 3231174268,
        e: 88,
    },
    Scaled {
        m: 4038967835,
        e: 91,
    },
    Scaled {
        m: 2524354897,
        e: 95,
    },
    Scaled {
        m: 3155443621,
        e: 98,
    },
    Scaled {
        m: 3944304527,
        e: 101,
    },
    Scaled {
        m: 2465190329,
        e: 105,
    },
    Scaled {
        m: 3081487912,
        e: 108,
    },
    Scaled {
        m: 3851859889,
        e: 111,
    },
    Scaled {
        m: 2407412431,
        e: 115,
    },
    Scaled {
        m: 3009265539,
        e: 118,
    },
    Scaled {
        m: 3761581923,
        e: 121,
    },
];

/// D(10^k), or U(10^k) where up is true. The tables are statics: a constant array of structs is copied whole at each use.
pub fn power_of_ten(up: bool, k: usize) -> Scaled
    requires { k < table_length }
    ensures { result ≡ entry up k }
{
    if up { UPPER[k] } else { LOWER[k] }
}
