//! A customer: it calls every public function of the library as a caller would, with any numbers and bytes, and meets each premise by the promise of the call
//! before. Only a function that takes or lends a session has a premise here, `Reached`, and one that takes a week, `FromCalls`; their callers start from the empty session
//! and the empty week.
#![tactic(auto)]

ghost use Rattle.std.specs.Prelude.{◌≡◌};
ghost use Rattle.encounter.specs.Session.{empty as empty_session, answer_of};
ghost use Rattle.encounter.specs.Calls.{begins, begins_conjunction, adds, reads, call, Reached};
ghost use Rattle.advice.specs.Advice.{advice};
ghost use Rattle.host.specs.Plot.{plotted};
ghost use Rattle.jinthuol.specs.Advice.{advice_numbers};
ghost use Rattle.jinthuol.specs.Answer.{numbered};
ghost use Rattle.jinthuol.specs.Doubles.{plotted_numbers};
ghost use Rattle.week.specs.Week.{empty_week, enter as entry, week_ends};
ghost use Rattle.week.specs.Told.{FromCalls};

use advice::{advise, orders};
use division::divide;
use encounter::decimals::to_decimal;
use encounter::mantissas::over;
use encounter::state::{Answer, Reading, Session};
use encounter::{calls, sums};
use exact::kinds::Kind;
use exact::refusals::Refusal;
use exact::{Conjunction, Decimal, Encounter, Scaled};
use host::{Doubles, PlotRecord, read_doubles, read_plot_record};
use jinthuol::{
    Listing, jinthuol_add, jinthuol_advise, jinthuol_begin, jinthuol_begin_conjunction,
    jinthuol_divide, jinthuol_empty, jinthuol_empty_week, jinthuol_enter, jinthuol_read,
    jinthuol_read_doubles, jinthuol_read_plot_record, jinthuol_run, jinthuol_to_decimal,
    jinthuol_version, jinthuol_week_ends,
};
use listing::put_line;
use listing::script::{Piece, put_lines, put_too_long};
use records::take_record;
use week::{Day, Ends, Week, empty_week, enter, entry, week_ends};

// A session of which callers know only that calls left it. The arguments are any, and have no struct: one of a caller's own would tie them together.
fn used(C: Conjunction, E: Encounter, count: u16, script: &[u8], at: usize) -> Session
    ensures { Reached result }
{
    let named = calls::begin_conjunction(Session::empty(), C);
    let begun = calls::begin(named.session, E);
    let added = calls::add(begun.session, count);
    let taken = take_record(added.session, script, at);
    taken.session
}

// Every call by value on such a session.
fn by_value(
    C: Conjunction,
    E: Encounter,
    count: u16,
    script: &[u8],
    at: usize,
    out: &mut [u8],
) -> Piece
    ensures { Reached result.session }
{
    let s = used(C, E, count, script, at);
    calls::begin(s, E);
    calls::begin_conjunction(s, C);
    calls::add(s, count);
    calls::read(s);
    let _ = calls::reading(s);
    let _ = advise(s);
    jinthuol_advise(s);
    take_record(s, script, at);
    put_lines(script, at, s, out)
}

// The calls of a plotting tool.
fn for_a_host(
    C: Conjunction,
    E: Encounter,
    count: u16,
    script: &[u8],
    at: usize,
) -> Result<Doubles, Refusal> {
    let session = used(C, E, count, script, at);
    jinthuol_read_doubles(session);
    jinthuol_read_plot_record(session);
    let _ = read_plot_record(session);
    read_doubles(session)
}

/// What a read answers after a begin, a second begin with object and time, and an add. The session is lent for each.
pub fn bracket(E: Encounter, C: Conjunction, count: u16) -> Answer
    ensures { result ≡ (call reads (call (adds count) (call (begins_conjunction C) (call (begins E) empty_session).session).session).session).answer }
{
    let mut session = Session::empty();
    session.begin(E);
    session.begin_conjunction(C);
    session.add(count);
    calls::read(session)
}

// The same as a reading or its refusal.
fn bracket_or_refusal(E: Encounter, C: Conjunction, count: u16) -> Result<Reading, Refusal>
    ensures { answer_of result ≡ (call reads (call (adds count) (call (begins_conjunction C) (call (begins E) empty_session).session).session).session).answer }
{
    let mut session = Session::empty();
    session.begin(E);
    session.begin_conjunction(C);
    session.add(count);
    calls::reading(session)
}

/// What a session is advised after a begin.
pub fn advised_order(E: Encounter) -> Result<Option<u16>, Refusal>
    ensures { result ≡ advice (call (begins E) empty_session).session }
{
    let mut session = Session::empty();
    session.begin(E);
    advise(session)
}

/// What the plotting tool stores after a begin with object and time, and an add.
pub fn stored_record(C: Conjunction, count: u16) -> Result<Option<PlotRecord>, Refusal>
    ensures { result ≡ plotted (call (adds count) (call (begins_conjunction C) empty_session).session).session }
{
    let mut session = Session::empty();
    session.begin_conjunction(C);
    session.add(count);
    read_plot_record(session)
}

// The week after an entry, accepted or refused.
fn entered(week: Week, day: u32, s: Session) -> Week
    requires { (FromCalls week) × Reached s }
    ensures { (result ≡ (entry week day s).week) × FromCalls result }
{
    enter(week, day, s).unwrap_or(week)
}

// What an entry puts into a day of any content.
fn any_entry(
    C: Conjunction,
    E: Encounter,
    count: u16,
    script: &[u8],
    at: usize,
    day: &Day,
) -> Result<(usize, Ends), Refusal> {
    entry(day, used(C, E, count, script, at))
}

/// The ends of a week with two entries of that session, on any days.
pub fn figure(C: Conjunction, count: u16, first: u32, second: u32) -> Ends
    ensures { result ≡ (let s = (call (adds count) (call (begins_conjunction C) empty_session).session).session in week_ends (entry (entry empty_week first s).week second s).week) }
{
    let mut session = Session::empty();
    session.begin_conjunction(C);
    session.add(count);
    let once = entered(empty_week(), first, session);
    let twice = entered(once, second, session);
    week_ends(twice)
}

/// The same from the exported calls.
pub fn bracket_exported(E: Encounter, C: Conjunction, count: u16) -> jinthuol::Answer
    ensures { result ≡ numbered (call reads (call (adds count) (call (begins_conjunction C) (call (begins E) empty_session).session).session).session).answer }
{
    let mut session = jinthuol_empty();
    jinthuol_begin(&mut session, E);
    jinthuol_begin_conjunction(&mut session, C);
    jinthuol_add(&mut session, count);
    jinthuol_read(session)
}

pub fn advised_order_exported(E: Encounter) -> jinthuol::Advice
    ensures { result ≡ advice_numbers (advice (call (begins E) empty_session).session) }
{
    let mut session = jinthuol_empty();
    jinthuol_begin(&mut session, E);
    jinthuol_advise(session)
}

pub fn stored_record_exported(C: Conjunction, count: u16) -> jinthuol::Plotted
    ensures { result ≡ plotted_numbers (plotted (call (adds count) (call (begins_conjunction C) empty_session).session).session) }
{
    let mut session = jinthuol_empty();
    jinthuol_begin_conjunction(&mut session, C);
    jinthuol_add(&mut session, count);
    jinthuol_read_plot_record(session)
}

pub fn figure_exported(C: Conjunction, count: u16, first: u32, second: u32) -> Ends
    ensures { result ≡ (let s = (call (adds count) (call (begins_conjunction C) empty_session).session).session in week_ends (entry (entry empty_week first s).week second s).week) }
{
    let mut session = jinthuol_empty();
    jinthuol_begin_conjunction(&mut session, C);
    jinthuol_add(&mut session, count);
    let once = jinthuol_enter(jinthuol_empty_week(), first, session);
    let twice = jinthuol_enter(once.week, second, session);
    jinthuol_week_ends(twice.week)
}

// The functions that take no session.
fn the_version() -> u32 {
    jinthuol_version()
}

fn the_table() -> [u16; 256] {
    orders()
}

fn any_number(n: u32) -> Scaled {
    Scaled::whole(n)
}

fn any_refusal(r: u32) -> Answer {
    Answer::refused(r)
}

fn its_number(refusal: Refusal) -> u32 {
    u32::from(refusal)
}

fn any_answer(r: Result<Reading, Refusal>) -> Answer {
    Answer::from(r)
}

fn any_body(kind: u8) -> Result<usize, Refusal> {
    Ok(Kind::try_from(kind)?.body_length())
}

fn in_decimal(up: bool, x: Scaled) -> Decimal {
    to_decimal(up, x)
}

fn in_decimal_exported(up: bool, x: Scaled) -> Decimal {
    jinthuol_to_decimal(up, x)
}

fn any_mantissa(up: bool, m: u32, k: u32) -> Scaled {
    over(up, m, k)
}

fn any_sum(up: bool, x: Scaled, y: Scaled) -> Scaled {
    sums::sum(up, x, y)
}

fn any_greater(x: Scaled, y: Scaled) -> Scaled {
    sums::greater(x, y)
}

fn any_figure(a: Ends, b: Ends) -> Ends {
    a.with(b)
}

fn any_quotient(up: bool, x: Scaled, k: u32) -> Result<Scaled, Refusal> {
    divide(up, x, k)
}

fn any_quotient_exported(up: bool, x: Scaled, k: u32) -> jinthuol::Divided {
    jinthuol_divide(up, x, k)
}

fn any_line(out: &mut [u8], at: usize, offset: usize, kind: u8, a: Answer) -> usize {
    put_line(out, at, offset, kind, a)
}

fn too_long(out: &mut [u8]) -> usize {
    put_too_long(out)
}

fn any_script(script: &[u8], out: &mut [u8]) -> Listing {
    jinthuol_run(script, out)
}
