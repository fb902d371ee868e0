//! Request #111 of document 02: a week of seven days of eight places, each empty or with the two ends of a read, and one figure for it.
#![tactic(auto)]

ghost use Rattle.std.specs.Prelude.{◌≡◌, true, IfOk, position, is_none, fold};
ghost use Rattle.exact.specs.Kinds.{refusal_in};
ghost use Rattle.exact.specs.Records.{read};
ghost use Rattle.exact.specs.Refusals.{refusal, test_24};
ghost use Rattle.encounter.specs.Calls.{history_of, reads, call, Reached};
ghost use Rattle.encounter.specs.Sums.{sum_in_limits, greater_in_limits};
ghost use Rattle.week.specs.Week.{ends_of, next_place, empty_week, enter, entry_of, held_in, week_ends};
ghost use Rattle.week.specs.Told.{FromCalls};
ghost use Rattle.week.specs.Claims.{Claims};
ghost use Rattle.week.specs.Private.Walk.{with_bracket};

use encounter::calls::reading;
use encounter::state::{Reading, Session};
use encounter::sums::{greater, sum};
use exact::refusals::Refusal;
use exact::{DAYS_A_WEEK, PLACES_A_DAY, Scaled};

/// Two ends: of a read, or of a week.
#[repr(C)]
#[derive(Clone, Copy)]
pub struct Ends {
    pub lower: Scaled,
    pub upper: Scaled,
}

/// The places of a day: a place is empty or has the two ends of a read.
pub type Day = [Option<Ends>; PLACES_A_DAY];

/// Arrays by value, as the papers name it, so `FromCalls` is a premise and no invariant.
pub type Week = [Day; DAYS_A_WEEK];

/// A week with nothing in it.
pub fn empty_week() -> Week
    ensures { (result ≡ empty_week) × FromCalls result }
{
    [[None; PLACES_A_DAY]; DAYS_A_WEEK]
}

impl From<Reading> for Ends {
    ghost from_gives = { λ x e. e ≡ record { lower = x.lower; upper = x.upper } };

    fn from(x: Reading) -> Ends {
        Ends {
            lower: x.lower,
            upper: x.upper,
        }
    }
}

// The number of a day's next empty place, where it has one.
fn next_place(day: &Day) -> Option<usize>
    ensures { result ≡ position is_none day.now }
{
    day.iter().position(|place| place.is_none())
}

/// What an entry puts into a day: the number of the next empty place, and the two ends of a read of the session. Refused as the read is, as 21 or 23, then as 24.
#[tactic(auto, using(crate::proofs::Entering::refused_read))]
pub fn entry(day: &Day, s: Session) -> Result<(usize, Ends), Refusal>
    requires { Reached s }
    ensures number { refusal_in result ≡ test_24 (refusal (history_of s) read) (next_place day.now) }
    ensures value { IfOk result (λ r. r ≡ (next_place day.now, ends_of (call reads s).answer)) }
{
    match (reading(s), next_place(day)) {
        (Err(refusal), _) => Err(refusal),
        (_, None) => Err(Refusal::FullDay),
        (Ok(x), Some(p)) => Ok((p, Ends::from(x))),
    }
}

/// The week with the two ends of a read of the session in the next empty place of the day: refused as 13, then as `entry` refuses.
pub fn enter(mut week: Week, day: u32, s: Session) -> Result<Week, Refusal>
    requires { (FromCalls week) × Reached s }
    ensures { (entry_of week result ≡ enter week day s) × IfOk result FromCalls }
{
    let d = day as usize;
    if DAYS_A_WEEK <= d {
        return Err(Refusal::NoDay);
    }
    let (p, ends) = entry(&week[d], s)?;
    week[d][p] = Some(ends);
    Ok(week)
}

impl Ends {
    /// The ends of the brackets so far, and of one more, by the sum and the greater that take any numbers.
    pub fn with(self, b: Ends) -> Ends
        ensures { result ≡ record { lower = greater_in_limits self.lower b.lower; upper = sum_in_limits true self.upper b.upper } }
    {
        Ends {
            lower: greater(self.lower, b.lower),
            upper: sum(true, self.upper, b.upper),
        }
    }

    // The ends of the brackets so far, and of those of one more day, in place order.
    fn with_day(self, day: &Day) -> Ends
        ensures { result ≡ fold with_bracket self (held_in day.now) }
    {
        let mut ends = self;
        for place in day.iter() {
            if let Some(b) = *place {
                ends = ends.with(b);
            }
        }
        ends
    }
}

/// The greatest lower end held, and the upper ends added up; zero for both where nothing is held.
pub fn week_ends(week: Week) -> Ends
    requires { FromCalls week }
    ensures value { result ≡ week_ends week }
    ensures claims { Claims }
{
    let mut ends = Ends {
        lower: Scaled::ZERO,
        upper: Scaled::ZERO,
    };
    for day in week.iter() {
        ends = ends.with_day(day);
    }
    ends
}
