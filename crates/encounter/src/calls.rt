//! begin, with and without object and time, add and read, by value.
ghost use Rattle.std.specs.Prelude.{◌≡◌, ◌+◌, ◌≤◌};
ghost use Rattle.exact.specs.Numbers.{largest_order};
ghost use Rattle.encounter.specs.Session.{empty as empty_session, state, conjunction_of, answer_of};
ghost use Rattle.encounter.specs.Private.Held.{Begun, at_order};
ghost use Rattle.encounter.specs.Calls.{begins, begins_conjunction, adds, reads, call, called, Reached};
ghost use Rattle.encounter.specs.Enclosure.{Demands};
ghost use Rattle.encounter.specs.Claims.{Claims};

mod answers;
mod ends;
pub mod lent;
mod opening;
mod tests;

use crate::calls::answers::called;
use crate::calls::ends::{classify, lower_end, may_read, upper_end};
use crate::calls::opening::opened;
use crate::calls::tests::{passes_test_7, passes_test_11, test_inputs};
use crate::state::{Answer, Called, Letters, Reading, Session, Side, Terms};
use crate::steps::counts::{Counts, counts_after};
use crate::steps::letters::{bound, letters};
use crate::steps::losses::letter_numbers;
use crate::steps::progress::{Progress, advance};
use exact::refusals::Refusal;
use exact::{Conjunction, Encounter, LARGEST_ORDER, Scaled};

impl Session {
    /// No encounter begun.
    pub fn empty() -> Session
        ensures value { (result ≡ empty_session) × Reached result }
        ensures claims { Claims }
    {
        Session::default()
    }
}

// The session of an encounter at order 1, with object and time 0: refused as 3 to 7 or 11.
fn begun(E: Encounter) -> Result<Session, Refusal>
    ensures { (s : Session) → called s result ≡ call (begins E) s }
{
    test_inputs(E)?;
    let above = letters(true, E);
    if !passes_test_7(above.t.number) {
        return Err(Refusal::LargeT);
    }
    let below = letters(false, E);
    let M = bound(letter_numbers(above));
    if !passes_test_11(M) {
        return Err(Refusal::NeverReadable);
    }
    Ok(opened(E, below, above, M))
}

// The same with its object number and its time: refused as 3 to 7 or 11, then as 9.
#[tactic(auto, using(crate::proofs::calls::Conjunctions::earlier_first))]
fn begun_conjunction(C: Conjunction) -> Result<Session, Refusal>
    ensures { (s : Session) → called s result ≡ call (begins_conjunction C) s }
{
    let session = begun(C.encounter)?;
    if C.object == 0 {
        return Err(Refusal::NoObject);
    }
    Ok(Session {
        object: C.object,
        time: C.time,
        ..session
    })
}

/// Begins an encounter, without object and time: refused as 3 to 7 or 11.
pub fn begin(s: Session, E: Encounter) -> Called
    requires { Reached s }
    ensures { (result ≡ call (begins E) s) × Reached result.session }
{
    called(s, begun(E))
}

/// Begins an encounter with its object number and its time: refused as 3 to 7 or 11, then as 9.
pub fn begin_conjunction(s: Session, C: Conjunction) -> Called
    requires { Reached s }
    ensures { (result ≡ call (begins_conjunction C) s) × Reached result.session }
{
    called(s, begun_conjunction(C))
}

// A session at another order.
fn at_order(s: Session, n: u32, p: Progress, k: Counts) -> Session
    ensures { result ≡ at_order s n p k }
{
    Session {
        N: n,
        lower: Side {
            terms: p.lower,
            ..s.lower
        },
        upper: Side {
            terms: p.upper,
            ..s.upper
        },
        d: p.d,
        exact: k.exact,
        lossless: k.lossless,
        ..s
    }
}

// A session `count` terms on.
fn further(s: Session, count: u32) -> Session
    requires { (Begun s) × (s.N + count ≤ largest_order) }
    ensures { result ≡ state (conjunction_of s) (s.N + count) }
{
    let k = counts_after(s, count);
    let p = advance(s, count);
    at_order(s, s.N + count, p, k)
}

// The session with `count` terms more: refused as 12, 21 or 22.
#[tactic(auto, using(crate::proofs::calls::Answering::add_refused_12, crate::proofs::calls::Answering::add_refused_21, crate::proofs::calls::Answering::add_refused_22))]
fn added(s: Session, count: u16) -> Result<Session, Refusal>
    requires { Reached s }
    ensures { called s result ≡ call (adds count) s }
{
    if count == 0 {
        return Err(Refusal::EmptyAdd);
    }
    if s.N == 0 {
        return Err(Refusal::NotBegun);
    }
    let n = s.N + u32::from(count);
    if LARGEST_ORDER < n {
        return Err(Refusal::AboveLargestOrder);
    }
    Ok(further(s, u32::from(count)))
}

/// Adds terms: refused as 12, 21 or 22.
pub fn add(s: Session, count: u16) -> Called
    requires { Reached s }
    ensures { (result ≡ call (adds count) s) × Reached result.session }
{
    called(s, added(s, count))
}

/// The bracket at the session's order: refused as 21 or 23.
pub fn reading(s: Session) -> Result<Reading, Refusal>
    requires { Reached s }
    ensures { answer_of result ≡ (call reads s).answer }
{
    if s.N == 0 {
        return Err(Refusal::NotBegun);
    }
    if !may_read(s) {
        return Err(Refusal::TailTooLarge);
    }
    let lower = lower_end(s);
    let upper = upper_end(s);
    Ok(Reading {
        N: s.N,
        lower,
        upper,
        class: classify(lower, upper),
        object: s.object,
        time: s.time,
        exact: s.exact,
    })
}

/// The same as an answer, with the refusal's number.
#[tactic(auto, using(crate::proofs::calls::Invariant::demands))]
pub fn read(s: Session) -> Answer
    requires { Reached s }
    ensures value { result ≡ (call reads s).answer }
    ensures demands { Demands }
{
    Answer::from(reading(s))
}
