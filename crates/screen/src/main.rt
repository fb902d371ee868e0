//! screen: runs a script from standard input and writes what document 01 says of it.
#![tactic(auto)]

ghost use Rattle.std.specs.Prelude.{OnOk, IfSome};
ghost use Rattle.std.specs.Io.KnownBytes.{Appends};
ghost use Rattle.encounter.specs.Calls.{Reached};
ghost use Rattle.listing.specs.Listing.{printed};
ghost use Rattle.streams.specs.Writing.{Appended, Handed};
ghost use Rattle.screen.specs.Printing.{NextOf};

use encounter::state::Session;
use exact::LARGEST_SCRIPT;
use listing::script::{Piece, put_lines, put_too_long};
use std::io;
use std::io::{Read, Write};
use streams::{KEPT, read_script};

// The bytes of a piece of the listing.
const PIECE: usize = 65536;

const UNREAD: &str = "the script could not be read";

const UNWRITTEN: &str = "the listing could not be written";

// A piece of what is left to print from a position on: the line of refusal 8 where the script is too long, and otherwise lines of its listing.
#[tactic(auto, using(crate::proofs::Pieces::next_long, crate::proofs::Pieces::next_short))]
fn put_piece(script: &[u8], at: usize, s: Session, out: &mut [u8; PIECE]) -> Piece
    requires { Reached s }
    ensures { NextOf script.now at s out.new result }
{
    if LARGEST_SCRIPT < script.len() {
        return Piece {
            used: put_too_long(out),
            next: at,
            session: s,
            ended: true,
        };
    }
    put_lines(script, at, s, out)
}

// Writes what is printed for the script, piece by piece, up to a piece that could not be written. Answers how many bytes it has.
fn run<W: Write>(output: &mut W, script: &[u8]) -> io::Result<usize>
    ensures handed { Handed (printed script.now) result }
    ensures bytes { Appended (W.contents output.old) (W.contents output.new) (printed script.now) result }
{
    let mut out = [0u8; PIECE];
    let mut session = Session::empty();
    let mut at = 0;
    let mut done = 0;
    // a piece says whether it is the last
    loop {
        let piece = put_piece(script, at, session, &mut out);
        output.write_all(&out[..piece.used])?;
        done += piece.used;
        if piece.ended {
            return Ok(done);
        }
        session = piece.session;
        at = piece.next;
    }
}

// Reads a script and writes what is printed for it, or answers what could not be done, in the words that `main` says.
fn screen<R: Read, W: Write>(input: &mut R, output: &mut W) -> Result<(), &'static str>
    ensures { OnOk result (IfSome (R.remaining input.old) (λ script. Appends (W.contents output.old) (W.contents output.new) (printed script))) }
{
    let mut kept = [0u8; KEPT];
    let n = read_script(input, &mut kept).map_err(|_| UNREAD)?;
    run(output, &kept[..n]).map_err(|_| UNWRITTEN)?;
    Ok(())
}

fn main(rt: HostRuntime) {
    if let Err(failure) = screen(&mut rt.stdin(), &mut rt.stdout()) {
        // Whether this succeeds is not looked at.
        let _ = eprintln!(rt; "screen: {failure}");
    }
}
