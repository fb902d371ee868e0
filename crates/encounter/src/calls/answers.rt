//! What a begin or an add answers.
ghost use Rattle.std.specs.Prelude.{◌≡◌};
ghost use Rattle.encounter.specs.Calls.{called};

use crate::state::{Answer, Called, Session};
use exact::refusals::Refusal;

/// The order of the session that a call leaves; or the refusal, which leaves the session s as it was.
pub fn called(s: Session, r: Result<Session, Refusal>) -> Called
    ensures { result ≡ called s r }
{
    match r {
        Ok(session) => Called {
            answer: Answer {
                N: session.N,
                ..Answer::refused(0)
            },
            session,
        },
        Err(refusal) => Called {
            answer: Answer::refused(u32::from(refusal)),
            session: s,
        },
    }
}
