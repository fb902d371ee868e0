//! The kinds of a record, as their bytes are read.
ghost use Rattle.std.specs.Prelude.{◌≡◌};
ghost use Rattle.exact.specs.Records.{body_length};
ghost use Rattle.exact.specs.Kinds.{kind_byte, Decodes};

use crate::refusals::Refusal;

/// "Kind 1, begin", "Kind 2, add", "Kind 3, read"; kind 4 by request #104 of document 02.
#[derive(Clone, Copy, Debug, PartialEq, Eq)]
pub enum Kind {
    Begin = 1,
    Add = 2,
    Read = 3,
    BeginConjunction = 4,
}

impl Kind {
    /// The bytes of a body.
    #[tactic(auto, unfolding(crate::specs::Records::body_length))]
    pub fn body_length(self) -> usize
        ensures { result ≡ body_length (kind_byte self) }
    {
        match self {
            Kind::Begin => 20,
            Kind::Add => 2,
            Kind::Read => 0,
            Kind::BeginConjunction => 28,
        }
    }
}

// Refused as 1: no such kind.
impl TryFrom<u8> for Kind {
    type Error = Refusal;

    ghost try_from_gives = { Decodes };

    #[tactic(auto, unfolding(crate::specs::Records::is_kind))]
    fn try_from(byte: u8) -> Result<Kind, Refusal> {
        match byte {
            1 => Ok(Kind::Begin),
            2 => Ok(Kind::Add),
            3 => Ok(Kind::Read),
            4 => Ok(Kind::BeginConjunction),
            _ => Err(Refusal::NoKind),
        }
    }
}
