//! Request #108 of document 02: both ends of a read as doubles, and the record that the plotting tool stores.
#![tactic(auto)]

ghost use Rattle.std.specs.Prelude.{◌≡◌, Ok};
ghost use Rattle.encounter.specs.Session.{answer_of};
ghost use Rattle.encounter.specs.Calls.{reads, call, Reached};
ghost use Rattle.host.specs.Doubles.{in_doubles, doubles, Says};
ghost use Rattle.host.specs.Plot.{in_record, plotted, Stores};
ghost use Rattle.host.specs.Lists.{HostDemands};
ghost use Rattle.host.specs.Private.Fitting.{EndsFit};

mod double;

use crate::double::{double_of, one_or_more};
use encounter::calls::reading;
use encounter::state::{Reading, Session};
use exact::refusals::Refusal;

/// The ends of a read as doubles, in the form that the papers name.
#[derive(Clone, Copy)]
pub enum Doubles {
    // The lower end and the upper end, which is below 1.
    Both(f64, f64),
    // The lower end, where the upper end is 1 or more.
    Unbounded(f64),
}

/// The object number, both ends and their difference.
#[repr(C)]
#[derive(Clone, Copy, Default)]
pub struct PlotRecord {
    pub object: u32,
    pub lower: f64,
    pub upper: f64,
    pub difference: f64,
}

// The ends of a read.
#[tactic(auto, using(crate::proofs::Answering::unbounded, crate::proofs::Answering::both, crate::proofs::Answering::upper_in))]
fn ends_of(r: Reading) -> Doubles
    requires { EndsFit r.lower r.upper }
    ensures { Ok result ≡ in_doubles (answer_of (Ok r)) }
{
    let lower = double_of(r.lower);
    if one_or_more(r.upper) {
        return Doubles::Unbounded(lower);
    }
    let upper = double_of(r.upper);
    Doubles::Both(lower, upper)
}

// The record of two ends.
#[tactic(auto, unfolding(crate::specs::Plot::in_record))]
fn record_of(object: u32, d: Doubles) -> Option<PlotRecord>
    ensures { Ok result ≡ in_record object (Ok d) }
{
    match d {
        Doubles::Both(lower, upper) => Some(PlotRecord {
            object,
            lower,
            upper,
            difference: upper - lower,
        }),
        Doubles::Unbounded(_) => None,
    }
}

/// Both ends at the session's order, or the lower end alone where the upper end is 1 or more. Refused as 21 or 23.
#[tactic(auto, using(crate::proofs::Listed::host_demands))]
pub fn read_doubles(s: Session) -> Result<Doubles, Refusal>
    requires { Reached s }
    ensures value { (result ≡ doubles s) × Says (call reads s).answer result }
    ensures demands { HostDemands }
{
    Ok(ends_of(reading(s)?))
}

/// The record at the session's order, or none where the upper end is 1 or more. Refused as 21 or 23.
pub fn read_plot_record(s: Session) -> Result<Option<PlotRecord>, Refusal>
    requires { Reached s }
    ensures { (result ≡ plotted s) × Stores (call reads s).answer result }
{
    let r = reading(s)?;
    Ok(record_of(r.object, ends_of(r)))
}
