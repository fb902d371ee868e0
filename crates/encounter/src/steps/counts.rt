//! The count of exact terms, taken on term by term while nothing is lost (request #105 of document 02).
ghost use Rattle.std.specs.Prelude.{◌≡◌, suc, ◌+◌, ◌≤◌, ◌<◌};
ghost use Rattle.exact.specs.Numbers.{largest_order};
ghost use Rattle.encounter.specs.Private.Held.{counts, counting, Begun};

use crate::state::{Session, Terms};
use crate::steps::losses::{either_side, side_step};

/// How many of the first terms are exact, and 1 where nothing was lost on the way to what the next term is formed of, else 0: a number, as in a session, whose layout C has.
#[derive(Clone, Copy)]
pub struct Counts {
    pub exact: u32,
    pub lossless: u32,
}

// Both sides' terms of one index, and the counts there.
#[derive(Clone, Copy)]
struct Counting {
    lower: Terms,
    upper: Terms,
    counts: Counts,
}

// One index on from n, where nothing was lost before.
fn next_counting(s: Session, w: Counting, n: u64) -> Counting
    requires { (Begun s) × (n < largest_order) × (w ≡ counting s.encounter n) × (0 < w.counts.lossless) }
    ensures { result ≡ counting s.encounter (suc n) }
{
    let (lower, below) = side_step(false, s.lower.letters, w.lower, n);
    let (upper, above) = side_step(true, s.upper.letters, w.upper, n);
    let lost = either_side(below, above);
    let counts = Counts {
        exact: w.counts.exact + u32::from(!lost.term),
        lossless: u32::from(!lost.operand),
    };
    Counting {
        lower,
        upper,
        counts,
    }
}

/// The counts `count` terms on.
pub fn counts_after(s: Session, count: u32) -> Counts
    requires { (Begun s) × (s.N + count ≤ largest_order) }
    ensures { result ≡ counts s.encounter (s.N + count) }
{
    let mut w = Counting {
        lower: s.lower.terms,
        upper: s.upper.terms,
        counts: Counts {
            exact: s.exact,
            lossless: s.lossless,
        },
    };
    // `u64::from` was tried: the proof has then to tie its result back
    let first = (s.N - 1) as u64;
    let limit = (s.N + count - 1) as u64;
    for n in first..limit {
        if w.counts.lossless == 0 {
            break;
        }
        w = next_counting(s, w, n);
    }
    w.counts
}
