//! The call of a script's record.
#![tactic(auto)]

ghost use Rattle.std.specs.Prelude.{◌≡◌, ◌≤◌, length, MatchResult};
ghost use Rattle.exact.specs.Records.{begin_at, conjunction_at, body_length, request_of};
ghost use Rattle.exact.specs.Kinds.{kind_byte};
ghost use Rattle.encounter.specs.Calls.{history_of, outcome, Reached};
ghost use Rattle.records.specs.RecordCall.{record_call};
ghost use Rattle.records.specs.Private.Made.{made_of};
ghost use Rattle.records.specs.Private.Record.{RecordAt, NoRecordAt};

mod bytes;

use crate::bytes::{i32_at, u16_at, u32_at};
use encounter::calls;
use encounter::state::{Answer, Called, Session};
use exact::kinds::Kind;
use exact::refusals::Refusal;
use exact::{Conjunction, Encounter};

/// What a record's call answers, the position of the next record, and the session after it; after refusal 1 or 2 the record's own position, as `record_call` has it.
#[derive(Clone, Copy)]
pub struct Taken {
    pub answer: Answer,
    pub next: usize,
    pub session: Session,
}

// The five inputs that a body begins with.
fn encounter_in(body: &[u8]) -> Encounter
    requires { 20 ≤ length body.now }
    ensures { result ≡ begin_at body.now 0 }
{
    Encounter {
        R: u32_at(body, 0),
        sx: u32_at(body, 4),
        sy: u32_at(body, 8),
        xm: i32_at(body, 12),
        ym: i32_at(body, 16),
    }
}

// The same, then the object number and the time.
fn conjunction_in(body: &[u8]) -> Conjunction
    requires { 28 ≤ length body.now }
    ensures { result ≡ conjunction_at body.now 0 }
{
    Conjunction {
        encounter: encounter_in(body),
        object: u32_at(body, 20),
        time: u32_at(body, 24),
    }
}

// The kind and the body of the record at a position.
#[tactic(auto, using(crate::proofs::Requests::no_byte, crate::proofs::Requests::no_kind))]
fn record_at(script: &[u8], at: usize) -> Result<(Kind, &[u8]), Refusal>
    ensures { MatchResult result (λ r. RecordAt script.now at r.0 r.1.now) (λ e. NoRecordAt script.now at e) }
{
    let byte = script.get(at).ok_or(Refusal::NoKind)?;
    let kind = Kind::try_from(*byte)?;
    let body = script[at + 1..]
        .get(..kind.body_length())
        .ok_or(Refusal::ShortBody)?;
    Ok((kind, body))
}

impl Taken {
    // A record whose call was made.
    fn made(c: Called, next: usize) -> Taken
        ensures { result ≡ made_of c next }
    {
        Taken {
            answer: c.answer,
            next,
            session: c.session,
        }
    }
}

/// The call that the record at a position asks for. After refusal 1 or 2 `next` is that position itself: the script ends there. The script is lent for reading only. Session, script
/// and position are three parameters, as `record_call` names them.
#[tactic(auto, using(crate::proofs::Requests::stopped, crate::proofs::Requests::taken), unfolding(exact::specs::Records::body_length, exact::specs::Records::request_of))]
pub fn take_record(s: Session, script: &[u8], at: usize) -> Taken
    requires { Reached s }
    ensures { (result ≡ record_call script.now at s) × Reached result.session }
{
    let (kind, body) = match record_at(script, at) {
        Ok(record) => record,
        Err(refusal) => {
            return Taken {
                answer: Answer::refused(u32::from(refusal)),
                next: at,
                session: s,
            };
        }
    };
    let next = at + 1 + body.len();
    match kind {
        Kind::Begin => Taken::made(calls::begin(s, encounter_in(body)), next),
        Kind::Add => Taken::made(calls::add(s, u16_at(body, 0)), next),
        Kind::Read => Taken {
            answer: calls::read(s),
            next,
            session: s,
        },
        Kind::BeginConjunction => Taken::made(
            calls::begin_conjunction(s, conjunction_in(body)),
            next,
        ),
    }
}
