//! The session: all that is kept of one encounter between calls, and what a call answers.
ghost use Rattle.std.specs.Prelude.{◌≡◌};
ghost use Rattle.encounter.specs.Session.{refused, answer_of};

use exact::refusals::Refusal;
use exact::{Encounter, Scaled};

/// A side's letters. Like Terms it is no instance of the generic struct of steps/numbers.rt: a session is handed to C, and no generic struct can be (error
/// unsupported-generic-in-c).
#[repr(C)]
#[derive(Clone, Copy, Default)]
pub struct Letters {
    pub u: Scaled,
    pub h: Scaled,
    pub X: Scaled,
    pub Y: Scaled,
    pub t: Scaled,
}

/// A side's c, p, v and y at N - 1, and its sum of c(0) to c(N - 1).
#[repr(C)]
#[derive(Clone, Copy, Default)]
pub struct Terms {
    pub c: Scaled,
    pub p: Scaled,
    pub v: Scaled,
    pub y: Scaled,
    pub sum: Scaled,
}

/// What a side keeps: its letters, its exponential sum and its terms.
#[repr(C)]
#[derive(Clone, Copy, Default)]
pub struct Side {
    pub letters: Letters,
    pub exponential: Scaled,
    pub terms: Terms,
}

/// The five inputs, the object number and the time of closest approach (both 0 after a begin without them), the order N (0 where no encounter was begun), both
/// sides, the upper r(256), M, and the upper d(N); then the count of exact terms, the leading ones (request #105), and 1 where nothing was lost on the way to
/// what the next term is formed of, else 0. C has the same struct, so no field is an Option or a bool.
/// That a session came from the calls is a premise (`Reached`) and no invariant: C hands sessions over, and the promises name it. So is what follows of a session with an
/// encounter (`Begun`).
#[repr(C)]
#[derive(Clone, Copy, Default)]
pub struct Session {
    pub encounter: Encounter,
    pub object: u32,
    pub time: u32,
    pub N: u32,
    pub lower: Side,
    pub upper: Side,
    pub r256: Scaled,
    pub M: Scaled,
    pub d: Scaled,
    pub exact: u32,
    pub lossless: u32,
}

#[derive(Clone, Copy)]
pub enum Class {
    Clear,
    Alert,
    Open,
}

/// What an accepted read answers, field by field as `Answer` has it, with 0 for no object number and no time: the order, both ends and the class, the object number, the time and how many of the first terms are exact.
#[derive(Clone, Copy)]
pub struct Reading {
    pub N: u32,
    pub lower: Scaled,
    pub upper: Scaled,
    pub class: Class,
    pub object: u32,
    pub time: u32,
    pub exact: u32,
}

/// The refusal's number, or 0; then the order, both ends and the class, and of an accepted read the object number, the time and how many of the first terms are exact.
/// A number, and no Refusal: document 01 answers so, definitions `refused` and `call` have it, and `Answer::refused` and `put_line` of crate `listing` take any.
#[derive(Clone, Copy)]
pub struct Answer {
    pub refusal: u32,
    pub N: u32,
    pub lower: Scaled,
    pub upper: Scaled,
    pub class: Class,
    pub object: u32,
    pub time: u32,
    pub exact: u32,
}

impl Answer {
    /// The answer of a refusal.
    pub fn refused(r: u32) -> Answer
        ensures { result ≡ refused r }
    {
        Answer {
            refusal: r,
            N: 0,
            lower: Scaled::ZERO,
            upper: Scaled::ZERO,
            class: Class::Clear,
            object: 0,
            time: 0,
            exact: 0,
        }
    }
}

impl From<Result<Reading, Refusal>> for Answer {
    ghost from_gives = { λ r a. a ≡ answer_of r };

    fn from(r: Result<Reading, Refusal>) -> Answer {
        match r {
            Ok(reading) => Answer {
                refusal: 0,
                N: reading.N,
                lower: reading.lower,
                upper: reading.upper,
                class: reading.class,
                object: reading.object,
                time: reading.time,
                exact: reading.exact,
            },
            Err(refusal) => Answer::refused(u32::from(refusal)),
        }
    }
}

/// What a call answers, and the session after it.
#[derive(Clone, Copy)]
pub struct Called {
    pub answer: Answer,
    pub session: Session,
}
