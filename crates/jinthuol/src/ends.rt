//! Ends as doubles, and the record that the plotting tool stores, with their cases as numbers (request #108).
ghost use Rattle.std.specs.Prelude.{◌≡◌};
ghost use Rattle.jinthuol.specs.Doubles.{doubles_numbers, plotted_numbers};

use crate::{Doubles, Plotted};
use exact::refusals::Refusal;
use host::PlotRecord;

// The tag: how many ends there are.
const REFUSED: u32 = 0;

const UNBOUNDED: u32 = 1;

const BOTH: u32 = 2;

impl From<Result<host::Doubles, Refusal>> for Doubles {
    ghost from_gives = { λ d r. r ≡ doubles_numbers d };

    #[tactic(auto, unfolding(crate::specs::Doubles::doubles_numbers), using(crate::proofs::Telling::zero_is))]
    fn from(d: Result<host::Doubles, Refusal>) -> Doubles {
        let (refusal, tag, lower, upper) = match d {
            Ok(host::Doubles::Both(lower, upper)) => (0, BOTH, lower, upper),
            Ok(host::Doubles::Unbounded(lower)) => (0, UNBOUNDED, lower, 0.0),
            Err(refusal) => (u32::from(refusal), REFUSED, 0.0, 0.0),
        };
        Doubles {
            refusal,
            tag,
            lower,
            upper,
        }
    }
}

impl From<Result<Option<PlotRecord>, Refusal>> for Plotted {
    ghost from_gives = { λ p r. r ≡ plotted_numbers p };

    #[tactic(auto, unfolding(crate::specs::Doubles::plotted_numbers), using(crate::proofs::Telling::zero_is))]
    fn from(p: Result<Option<PlotRecord>, Refusal>) -> Plotted {
        let (refusal, tag, plot) = match p {
            Ok(Some(plot)) => (0, BOTH, plot),
            Ok(None) => (0, UNBOUNDED, PlotRecord::default()),
            Err(refusal) => (u32::from(refusal), REFUSED, PlotRecord::default()),
        };
        Plotted { refusal, tag, plot }
    }
}
