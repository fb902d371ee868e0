//! The static library for programs in other languages: the calls of crate jinthuol under their names of C, each with that call's promise: an export is proved by
//! its own text, so the clauses stand again.
#![tactic(auto)]

ghost use Rattle.std.specs.Prelude.{◌≡◌};
ghost use Rattle.exact.specs.Decimals.{decimal_of, Printed, Found, Near};
ghost use Rattle.encounter.specs.Session.{empty as empty_session};
ghost use Rattle.encounter.specs.Calls.{begins, begins_conjunction, adds, reads, call, Reached};
ghost use Rattle.advice.specs.Advice.{advice as advised};
ghost use Rattle.division.specs.Division.{divided, Says};
ghost use Rattle.host.specs.Doubles.{doubles as host_doubles, Says as DoublesSay};
ghost use Rattle.host.specs.Plot.{plotted as host_plotted, Stores};
ghost use Rattle.jinthuol.specs.Advice.{advice_numbers, told};
ghost use Rattle.jinthuol.specs.Answer.{numbered};
ghost use Rattle.jinthuol.specs.Division.{divided_numbers, divided_told};
ghost use Rattle.jinthuol.specs.Doubles.{doubles_numbers, doubles_told, plotted_numbers, plotted_told};
ghost use Rattle.jinthuol.specs.Run.{RunOf};
ghost use Rattle.jinthuol.specs.Version.{version};
ghost use Rattle.jinthuol.specs.Week.{days_of, in_days, entered_as};
ghost use Rattle.week.specs.Week.{empty_week, enter as week_entry, week_ends as ends_of_week};
ghost use Rattle.week.specs.Told.{FromCalls};

use encounter::state::Session;
use exact::{Conjunction, Decimal, Encounter, Scaled};
use jinthuol::{Advice, Answer, Divided, Doubles, Entered, Listing, Plotted, Week};
use week::Ends;

#[unsafe(no_mangle)]
pub extern "C" fn jinthuol_version() -> u32
    ensures { result ≡ version }
{
    jinthuol::jinthuol_version()
}

/// No encounter begun.
#[unsafe(no_mangle)]
pub extern "C" fn jinthuol_empty() -> Session
    ensures { (result ≡ empty_session) × Reached result }
{
    jinthuol::jinthuol_empty()
}

#[unsafe(no_mangle)]
pub extern "C" fn jinthuol_begin(session: &mut Session, encounter: Encounter) -> Answer
    requires { Reached session.old }
    ensures { (result ≡ numbered (call (begins encounter) session.old).answer) × (session.new ≡ (call (begins encounter) session.old).session) × Reached session.new }
{
    jinthuol::jinthuol_begin(session, encounter)
}

#[unsafe(no_mangle)]
pub extern "C" fn jinthuol_begin_conjunction(
    session: &mut Session,
    conjunction: Conjunction,
) -> Answer
    requires { Reached session.old }
    ensures { (result ≡ numbered (call (begins_conjunction conjunction) session.old).answer) × (session.new ≡ (call (begins_conjunction conjunction) session.old).session) × Reached session.new }
{
    jinthuol::jinthuol_begin_conjunction(session, conjunction)
}

#[unsafe(no_mangle)]
pub extern "C" fn jinthuol_add(session: &mut Session, count: u16) -> Answer
    requires { Reached session.old }
    ensures { (result ≡ numbered (call (adds count) session.old).answer) × (session.new ≡ (call (adds count) session.old).session) × Reached session.new }
{
    jinthuol::jinthuol_add(session, count)
}

#[unsafe(no_mangle)]
pub extern "C" fn jinthuol_read(session: Session) -> Answer
    requires { Reached session }
    ensures { result ≡ numbered (call reads session).answer }
{
    jinthuol::jinthuol_read(session)
}

/// The advised order of the session's encounter.
#[unsafe(no_mangle)]
pub extern "C" fn jinthuol_advise(session: Session) -> Advice
    requires { Reached session }
    ensures { (result ≡ advice_numbers (advised session)) × (told result ≡ advised session) }
{
    jinthuol::jinthuol_advise(session)
}

/// Both ends as doubles, or the lower end alone where the upper end is 1 or more.
#[unsafe(no_mangle)]
pub extern "C" fn jinthuol_read_doubles(session: Session) -> Doubles
    requires { Reached session }
    ensures { (result ≡ doubles_numbers (host_doubles session)) × (doubles_told result ≡ host_doubles session) × DoublesSay (call reads session).answer (doubles_told result) }
{
    jinthuol::jinthuol_read_doubles(session)
}

/// The record that the plotting tool stores, where both ends are there.
#[unsafe(no_mangle)]
pub extern "C" fn jinthuol_read_plot_record(session: Session) -> Plotted
    requires { Reached session }
    ensures { (result ≡ plotted_numbers (host_plotted session)) × (plotted_told result ≡ host_plotted session) × Stores (call reads session).answer (plotted_told result) }
{
    jinthuol::jinthuol_read_plot_record(session)
}

/// A week with nothing in it.
#[unsafe(no_mangle)]
pub extern "C" fn jinthuol_empty_week() -> Week
    ensures { (result ≡ in_days empty_week) × (days_of result ≡ empty_week) × FromCalls (days_of result) }
{
    jinthuol::jinthuol_empty_week()
}

/// The week with the two ends of a read of the session in the next empty place of the day.
#[unsafe(no_mangle)]
pub extern "C" fn jinthuol_enter(week: Week, day: u32, session: Session) -> Entered
    requires { (FromCalls (days_of week)) × Reached session }
    ensures { (result ≡ entered_as (week_entry (days_of week) day session)) × (days_of result.week ≡ (week_entry (days_of week) day session).week) × FromCalls (days_of result.week) }
{
    jinthuol::jinthuol_enter(week, day, session)
}

/// The week's two ends.
#[unsafe(no_mangle)]
pub extern "C" fn jinthuol_week_ends(week: Week) -> Ends
    requires { FromCalls (days_of week) }
    ensures { result ≡ ends_of_week (days_of week) }
{
    jinthuol::jinthuol_week_ends(week)
}

/// A number in decimal, as a lower end or, where up is true, as an upper one.
#[unsafe(no_mangle)]
pub extern "C" fn jinthuol_to_decimal(up: bool, number: Scaled) -> Decimal
    ensures { (result ≡ decimal_of up number) × Printed up number result × (Found up number → Near number result) }
{
    jinthuol::jinthuol_to_decimal(up, number)
}

/// A number divided by a whole number: rounded down or, where up is true, up.
#[unsafe(no_mangle)]
pub extern "C" fn jinthuol_divide(up: bool, number: Scaled, divisor: u32) -> Divided
    ensures { (result ≡ divided_numbers (divided up number divisor)) × (divided_told result ≡ divided up number divisor) × Says up number divisor (divided_told result) }
{
    jinthuol::jinthuol_divide(up, number, divisor)
}

/// The listing of a script, as far as the buffer has room for it.
#[unsafe(no_mangle)]
pub extern "C" fn jinthuol_run(script: &[u8], out: &mut [u8]) -> Listing
    ensures { RunOf script.now out.old out.new result }
{
    jinthuol::jinthuol_run(script, out)
}
