//! The refusals of both tables of document 01 and of document 02, under the numbers that they have there.
ghost use Rattle.std.specs.Prelude.{◌≡◌};
ghost use Rattle.exact.specs.Kinds.{number_of};

/// Why a call is refused.
#[derive(Clone, Copy, Debug, PartialEq, Eq)]
pub enum Refusal {
    NoKind = 1,
    ShortBody = 2,
    Radius = 3,
    Sigma = 4,
    LargerSigma = 5,
    Miss = 6,
    LargeT = 7,
    LongScript = 8,
    NoObject = 9,
    Quotient = 10,
    NeverReadable = 11,
    EmptyAdd = 12,
    NoDay = 13,
    NotBegun = 21,
    AboveLargestOrder = 22,
    TailTooLarge = 23,
    FullDay = 24,
}

impl From<Refusal> for u32 {
    ghost from_gives = { λ r n. n ≡ number_of r };

    fn from(r: Refusal) -> u32 {
        r as u32
    }
}
