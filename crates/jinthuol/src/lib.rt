//! The library for programs in other languages: the calls of crate encounter, the advised order, ends as doubles, the week, numbers in decimal, the division by a whole
//! number and the listing of a script, under names of C. Crate jinthuol_c exports them.
#![tactic(auto)]

ghost use Rattle.std.specs.Prelude.{◌≡◌};
ghost use Rattle.exact.specs.Decimals.{decimal_of, Printed, Found, Near};
ghost use Rattle.encounter.specs.Session.{empty as empty_session};
ghost use Rattle.encounter.specs.Calls.{begins, begins_conjunction, adds, reads, call, Reached};
ghost use Rattle.advice.specs.Advice.{advice as advised};
ghost use Rattle.division.specs.Division.{divided, Says};
ghost use Rattle.host.specs.Doubles.{doubles as host_doubles, Says as DoublesSay};
ghost use Rattle.host.specs.Plot.{plotted as host_plotted, Stores};
ghost use Rattle.jinthuol.specs.Advice.{advice_numbers, told};
ghost use Rattle.jinthuol.specs.Answer.{class_number, numbered};
ghost use Rattle.jinthuol.specs.Division.{divided_numbers, divided_told};
ghost use Rattle.jinthuol.specs.Doubles.{doubles_numbers, doubles_told, plotted_numbers, plotted_told};
ghost use Rattle.jinthuol.specs.Run.{RunOf};
ghost use Rattle.jinthuol.specs.Version.{version};
ghost use Rattle.jinthuol.specs.Week.{days_of, in_days, entered_as};
ghost use Rattle.week.specs.Week.{empty_week, enter as week_entry, week_ends as ends_of_week};
ghost use Rattle.week.specs.Told.{FromCalls};

mod ends;
mod weeks;

use crate::weeks::{place_for, with_day, write_week};
use advice::advise;
use division::divide;
use encounter::decimals::to_decimal;
use encounter::state::{Class, Session};
use encounter::{calls, state};
use exact::refusals::Refusal;
use exact::{Conjunction, DAYS_A_WEEK, Decimal, Encounter, LARGEST_SCRIPT, PLACES_A_DAY, Scaled};
use host::{PlotRecord, read_doubles, read_plot_record};
use listing::script::{put_lines, put_too_long};
use week::Ends;

/// The version of the functions below and their structs; bindings/c/jinthuol.h has the same number.
pub const VERSION: u32 = 11;

// The structs of bindings/c/jinthuol.h: C has no Option and no Result, so a refusal is a number, 0 for none, and a case is a tag.

/// An answer, with its class as a number.
#[repr(C)]
#[derive(Clone, Copy)]
pub struct Answer {
    pub refusal: u32,
    pub N: u32,
    pub lower: Scaled,
    pub upper: Scaled,
    pub class: u32,
    pub object: u32,
    pub time: u32,
    pub exact: u32,
}

/// The refusal's number, or 0; then the advised order, or 0 where there is none.
#[repr(C)]
#[derive(Clone, Copy)]
pub struct Advice {
    pub refusal: u32,
    pub order: u32,
}

/// The refusal's number, or 0; the tag; then the ends, each 0 where it is not there.
#[repr(C)]
#[derive(Clone, Copy)]
pub struct Doubles {
    pub refusal: u32,
    pub tag: u32,
    pub lower: f64,
    pub upper: f64,
}

/// The refusal's number, or 0; the tag; then the record, with 0 in every field where there is none.
#[repr(C)]
#[derive(Clone, Copy)]
pub struct Plotted {
    pub refusal: u32,
    pub tag: u32,
    pub plot: PlotRecord,
}

/// A place of a week: held is 1 where it has the two ends of a read; in an empty place all is 0.
#[repr(C)]
#[derive(Clone, Copy)]
pub struct Bracket {
    pub held: u32,
    pub lower: Scaled,
    pub upper: Scaled,
}

/// The places of a day.
#[repr(C)]
#[derive(Clone, Copy)]
pub struct Day {
    pub places: [Bracket; PLACES_A_DAY],
}

/// The days of a week: a function for other languages takes and answers no array by value.
#[repr(C)]
#[derive(Clone, Copy)]
pub struct Week {
    pub days: [Day; DAYS_A_WEEK],
}

/// The refusal's number, or 0; then the week, which is as it was where it is refused.
#[repr(C)]
#[derive(Clone, Copy)]
pub struct Entered {
    pub refusal: u32,
    pub week: Week,
}

/// The refusal's number, or 0; then the quotient, which is zero where it is refused.
#[repr(C)]
#[derive(Clone, Copy)]
pub struct Divided {
    pub refusal: u32,
    pub quotient: Scaled,
}

/// The bytes of the buffer that are used, and whether they are the whole listing.
#[repr(C)]
#[derive(Clone, Copy)]
pub struct Listing {
    pub used: usize,
    pub ended: bool,
}

// The number of a class in C. No `From`: Rust has none in a crate that has neither of the two types, and the numbers are of the C interface (`class_number`).
#[tactic(auto, unfolding(crate::specs::Answer::class_number))]
fn number(c: Class) -> u32
    ensures { result ≡ class_number c }
{
    match c {
        Class::Clear => 0,
        Class::Alert => 1,
        Class::Open => 2,
    }
}

impl From<state::Answer> for Answer {
    ghost from_gives = { λ a r. r ≡ numbered a };

    #[tactic(auto, unfolding(crate::specs::Answer::numbered))]
    fn from(a: state::Answer) -> Answer {
        Answer {
            refusal: a.refusal,
            N: a.N,
            lower: a.lower,
            upper: a.upper,
            class: number(a.class),
            object: a.object,
            time: a.time,
            exact: a.exact,
        }
    }
}

impl From<Result<Option<u16>, Refusal>> for Advice {
    ghost from_gives = { λ a r. r ≡ advice_numbers a };

    #[tactic(auto, unfolding(crate::specs::Advice::advice_numbers))]
    fn from(a: Result<Option<u16>, Refusal>) -> Advice {
        let (refusal, order) = match a {
            Ok(Some(N)) => (0, u32::from(N)),
            Ok(None) => (0, 0),
            Err(refusal) => (u32::from(refusal), 0),
        };
        Advice { refusal, order }
    }
}

impl From<Result<Scaled, Refusal>> for Divided {
    ghost from_gives = { λ d r. r ≡ divided_numbers d };

    #[tactic(auto, unfolding(crate::specs::Division::divided_numbers))]
    fn from(d: Result<Scaled, Refusal>) -> Divided {
        let (refusal, quotient) = match d {
            Ok(quotient) => (0, quotient),
            Err(refusal) => (u32::from(refusal), Scaled::ZERO),
        };
        Divided { refusal, quotient }
    }
}

pub fn jinthuol_version() -> u32
    ensures { result ≡ version }
{
    VERSION
}

/// No encounter begun.
pub fn jinthuol_empty() -> Session
    ensures { (result ≡ empty_session) × Reached result }
{
    Session::empty()
}

pub fn jinthuol_begin(session: &mut Session, encounter: Encounter) -> Answer
    requires { Reached session.old }
    ensures { (result ≡ numbered (call (begins encounter) session.old).answer) × (session.new ≡ (call (begins encounter) session.old).session) × Reached session.new }
{
    Answer::from(session.begin(encounter))
}

pub fn jinthuol_begin_conjunction(session: &mut Session, conjunction: Conjunction) -> Answer
    requires { Reached session.old }
    ensures { (result ≡ numbered (call (begins_conjunction conjunction) session.old).answer) × (session.new ≡ (call (begins_conjunction conjunction) session.old).session) × Reached session.new }
{
    Answer::from(session.begin_conjunction(conjunction))
}

pub fn jinthuol_add(session: &mut Session, count: u16) -> Answer
    requires { Reached session.old }
    ensures { (result ≡ numbered (call (adds count) session.old).answer) × (session.new ≡ (call (adds count) session.old).session) × Reached session.new }
{
    Answer::from(session.add(count))
}

pub fn jinthuol_read(session: Session) -> Answer
    requires { Reached session }
    ensures { result ≡ numbered (call reads session).answer }
{
    Answer::from(calls::read(session))
}

/// The advised order of the session's encounter.
pub fn jinthuol_advise(session: Session) -> Advice
    requires { Reached session }
    ensures { (result ≡ advice_numbers (advised session)) × (told result ≡ advised session) }
{
    Advice::from(advise(session))
}

/// Both ends as doubles, or the lower end alone where the upper end is 1 or more.
pub fn jinthuol_read_doubles(session: Session) -> Doubles
    requires { Reached session }
    ensures { (result ≡ doubles_numbers (host_doubles session)) × (doubles_told result ≡ host_doubles session) × DoublesSay (call reads session).answer (doubles_told result) }
{
    Doubles::from(read_doubles(session))
}

/// The record that the plotting tool stores, where both ends are there.
pub fn jinthuol_read_plot_record(session: Session) -> Plotted
    requires { Reached session }
    ensures { (result ≡ plotted_numbers (host_plotted session)) × (plotted_told result ≡ host_plotted session) × Stores (call reads session).answer (plotted_told result) }
{
    Plotted::from(read_plot_record(session))
}

/// A week with nothing in it.
pub fn jinthuol_empty_week() -> Week
    ensures { (result ≡ in_days empty_week) × (days_of result ≡ empty_week) × FromCalls (days_of result) }
{
    Week {
        days: [Day {
            places: [Bracket::from(None); PLACES_A_DAY],
        }; DAYS_A_WEEK],
    }
}

/// The week with the two ends of a read of the session in the next empty place of the day.
pub fn jinthuol_enter(week: Week, day: u32, session: Session) -> Entered
    requires { (FromCalls (days_of week)) × Reached session }
    ensures { (result ≡ entered_as (week_entry (days_of week) day session)) × (days_of result.week ≡ (week_entry (days_of week) day session).week) × FromCalls (days_of result.week) }
{
    let mut entered = Entered { refusal: 0, week };
    write_week(&mut entered.week);
    match place_for(&entered.week, day, session) {
        Ok((d, p, ends)) => entered.week.days[d].places[p] = Bracket::from(Some(ends)),
        Err(refusal) => entered.refusal = u32::from(refusal),
    }
    entered
}

/// The week's two ends.
pub fn jinthuol_week_ends(week: Week) -> Ends
    requires { FromCalls (days_of week) }
    ensures { result ≡ ends_of_week (days_of week) }
{
    let mut ends = Ends {
        lower: Scaled::ZERO,
        upper: Scaled::ZERO,
    };
    for day in week.days.iter() {
        ends = with_day(ends, day);
    }
    ends
}

/// A number in decimal, as a lower end or, where up is true, as an upper one.
pub fn jinthuol_to_decimal(up: bool, number: Scaled) -> Decimal
    ensures { (result ≡ decimal_of up number) × Printed up number result × (Found up number → Near number result) }
{
    to_decimal(up, number)
}

/// A number divided by a whole number: rounded down or, where up is true, up.
pub fn jinthuol_divide(up: bool, number: Scaled, divisor: u32) -> Divided
    ensures { (result ≡ divided_numbers (divided up number divisor)) × (divided_told result ≡ divided up number divisor) × Says up number divisor (divided_told result) }
{
    Divided::from(divide(up, number, divisor))
}

/// The listing of a script, as far as the buffer has room for it.
#[tactic(auto, using(crate::proofs::Running::run_long))]
pub fn jinthuol_run(script: &[u8], out: &mut [u8]) -> Listing
    ensures { RunOf script.now out.old out.new result }
{
    if LARGEST_SCRIPT < script.len() {
        let used = put_too_long(out);
        return Listing {
            used,
            ended: 0 < used,
        };
    }
    let piece = put_lines(script, 0, Session::empty(), out);
    Listing {
        used: piece.used,
        ended: piece.ended,
    }
}
