//! The listing of a script, in pieces.
ghost use Rattle.encounter.specs.Calls.{Reached};
ghost use Rattle.listing.specs.Listing.{PieceOf, is_final, too_long};
ghost use Rattle.listing.specs.Put.{PutLine};
ghost use Rattle.std.specs.Prelude.{◌≡◌};

use crate::{ROOM, put_line};
use encounter::state::{Answer, Session};
use exact::refusals::Refusal;
use records::take_record;

/// The bytes of the buffer that are used, the next position and the session there, and whether the listing is at its end. All of them are there in either case, as `PieceOf`
/// names them.
#[derive(Clone, Copy)]
pub struct Piece {
    pub used: usize,
    pub next: usize,
    pub session: Session,
    pub ended: bool,
}

// Whether the script ends with this answer, whose refusal is a number.
#[tactic(auto, unfolding(crate::specs::Listing::is_final))]
fn is_final(a: Answer) -> bool
    ensures { result ≡ is_final a }
{
    matches!(a.refusal, 1 | 2)
}

/// The lines of the records from a position on, while the buffer has ROOM bytes left.
#[tactic(auto, using(crate::proofs::Lines::going_start, crate::proofs::Lines::going_full, crate::proofs::Lines::going_end, crate::proofs::Lines::next_is))]
pub fn put_lines(script: &[u8], at: usize, s: Session, out: &mut [u8]) -> Piece
    requires { Reached s }
    ensures { PieceOf script.now at s out.old out.new result }
{
    let mut piece = Piece {
        used: 0,
        next: at,
        session: s,
        ended: false,
    };
    // no iterator: the next position is what the record's call answers
    while piece.next < script.len() {
        if out.len() - piece.used < ROOM {
            return piece;
        }
        let kind = script[piece.next];
        let taken = take_record(piece.session, script, piece.next);
        piece.used = put_line(out, piece.used, piece.next, kind, taken.answer);
        piece.next = taken.next;
        piece.session = taken.session;
        if is_final(taken.answer) {
            break;
        }
    }
    piece.ended = true;
    piece
}

/// The line of a script that is too long.
pub fn put_too_long(out: &mut [u8]) -> usize
    ensures { PutLine out.old out.new 0 0 0 too_long result }
{
    put_line(
        out,
        0,
        0,
        0,
        Answer::refused(u32::from(Refusal::LongScript)),
    )
}
