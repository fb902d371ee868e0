//! Request #106 of document 02: the order that a session is advised to be summed to.
#![tactic(auto)]

ghost use Rattle.std.specs.Prelude.{◌≡◌};
ghost use Rattle.encounter.specs.Calls.{Reached};
ghost use Rattle.advice.specs.Advice.{advice, Says};

mod entry;
mod table;

use crate::entry::entry_for;
pub use crate::table::orders;
use encounter::state::Session;
use exact::refusals::Refusal;

/// The advised order of the session's encounter: the entry of the table for M taken up to a whole number, or none where M is above 256. Refused as 21 where no
/// encounter is begun. What holds at that order and later is in `Claims`, which `orders` promises.
#[tactic(auto, using(crate::proofs::Advising::advice_none, crate::proofs::Advising::advice_some_is, crate::proofs::Advising::says_entry))]
pub fn advise(s: Session) -> Result<Option<u16>, Refusal>
    requires { Reached s }
    ensures { (result ≡ advice s) × Says s result }
{
    if s.N == 0 {
        return Err(Refusal::NotBegun);
    }
    Ok(entry_for(s.M))
}
