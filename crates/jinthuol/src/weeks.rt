//! The struct of a week that programs in other languages have, beside the array of arrays that crate `week` takes (request #111): the two directions of a place, and what
//! the exported calls do with the struct, in place, since a second week would cost more time than an entry.
ghost use Rattle.std.specs.Prelude.{◌≡◌, IfOk, fold, map};
ghost use Rattle.exact.specs.Kinds.{refusal_in};
ghost use Rattle.exact.specs.Refusals.{entry_refusal};
ghost use Rattle.encounter.specs.Calls.{history_of, reads, call, Reached};
ghost use Rattle.jinthuol.specs.Week.{bracket_of, place_in, days_of, in_days};
ghost use Rattle.week.specs.Week.{day_of, next_place, ends_of, held_in};
ghost use Rattle.week.specs.Private.Walk.{with_bracket};

use crate::{Bracket, Day, Week};
use encounter::state::Session;
use exact::refusals::Refusal;
use exact::{DAYS_A_WEEK, Scaled};
use week::{Ends, entry};

impl From<Option<Ends>> for Bracket {
    ghost from_gives = { λ place b. b ≡ bracket_of place };

    fn from(place: Option<Ends>) -> Bracket {
        match place {
            Some(ends) => Bracket {
                held: 1,
                lower: ends.lower,
                upper: ends.upper,
            },
            None => Bracket {
                held: 0,
                lower: Scaled::ZERO,
                upper: Scaled::ZERO,
            },
        }
    }
}

impl From<Bracket> for Option<Ends> {
    ghost from_gives = { λ b place. place ≡ place_in b };

    fn from(b: Bracket) -> Option<Ends> {
        if b.held == 0 {
            return None;
        }
        Some(Ends {
            lower: b.lower,
            upper: b.upper,
        })
    }
}

// Place by place, since `map` of an array makes several copies of it.
fn places_of(day: Day) -> week::Day
    ensures { result ≡ map place_in day.places }
{
    let [a, b, c, d, e, f, g, h] = day.places;
    [
        Option::from(a),
        Option::from(b),
        Option::from(c),
        Option::from(d),
        Option::from(e),
        Option::from(f),
        Option::from(g),
        Option::from(h),
    ]
}

// The places of a day as these calls write them: in a held one held is 1, in an empty one all is 0.
fn write_day(day: &mut Day)
    ensures { day.new ≡ record { places = map (λ b. bracket_of (place_in b)) day.old.places } }
{
    for place in day.places.iter_mut() {
        if place.held == 0 {
            *place = Bracket::from(None);
        } else {
            place.held = 1;
        }
    }
}

// The same of each day.
pub fn write_week(week: &mut Week)
    ensures { week.new ≡ in_days (days_of week.old) }
{
    for day in week.days.iter_mut() {
        write_day(day);
    }
}

// The place that an entry takes, by its day and its number in it, and what goes there.
pub fn place_for(week: &Week, day: u32, s: Session) -> Result<(usize, usize, Ends), Refusal>
    requires { Reached s }
    ensures number { refusal_in result ≡ entry_refusal (history_of s) day (next_place (day_of (days_of week.now) day)) }
    ensures value { IfOk result (λ r. r ≡ (day, next_place (day_of (days_of week.now) day), ends_of (call reads s).answer)) }
{
    let d = day as usize;
    if DAYS_A_WEEK <= d {
        return Err(Refusal::NoDay);
    }
    let (p, ends) = entry(&places_of(week.days[d]), s)?;
    Ok((d, p, ends))
}

// The ends of the brackets so far, and of those of one more day, in place order.
pub fn with_day(mut ends: Ends, day: &Day) -> Ends
    ensures { result ≡ fold with_bracket ends (held_in (map place_in day.now.places)) }
{
    for place in day.places.iter() {
        if let Some(b) = Option::from(*place) {
            ends = ends.with(b);
        }
    }
    ends
}
