//! drop_empty_adds: copies a script from standard input to standard output without its adds of count 0.
#![tactic(auto)]

ghost use Rattle.std.specs.Prelude.{OnOk, IfSome};
ghost use Rattle.std.specs.Io.KnownBytes.{Appends};
ghost use Rattle.streams.specs.Writing.{Appended, Handed};
ghost use Rattle.drop_empty_adds.specs.Dropping.{dropped};

mod dropping;

use crate::dropping::drop_empty_adds;
use exact::LARGEST_SCRIPT;
use std::io;
use std::io::{Read, Write};
use streams::{KEPT, read_script};

const UNREAD: &str = "the script could not be read";

const TOO_LONG: &str = "the script is longer than 65,536 bytes (refusal 8): nothing was written";

const UNWRITTEN: &str = "the new script could not be written";

// Writes the new script; of one that is too long, nothing. Answers how many bytes it has.
fn run<W: Write>(output: &mut W, script: &mut [u8]) -> io::Result<usize>
    ensures handed { Handed (dropped script.old) result }
    ensures bytes { Appended (W.contents output.old) (W.contents output.new) (dropped script.old) result }
{
    let n = drop_empty_adds(script);
    output.write_all(&script[..n])?;
    Ok(n)
}

// Like `screen` of that program, with another text and another promise: no function over a closure would be plainer. Reads a script and writes the new one, of one that
// is too long nothing. Answers how many bytes the script has, at most one more than a script may have; or why not all was read or written.
fn copy<R: Read, W: Write>(input: &mut R, output: &mut W) -> Result<usize, &'static str>
    ensures { OnOk result (IfSome (R.remaining input.old) (λ script. Appends (W.contents output.old) (W.contents output.new) (dropped script))) }
{
    let mut kept = [0u8; KEPT];
    let n = read_script(input, &mut kept).map_err(|_| UNREAD)?;
    run(output, &mut kept[..n]).map_err(|_| UNWRITTEN)?;
    Ok(n)
}

fn main(rt: HostRuntime) {
    let failure = match copy(&mut rt.stdin(), &mut rt.stdout()) {
        Ok(n) if n <= LARGEST_SCRIPT => return,
        Ok(_) => TOO_LONG,
        Err(failure) => failure,
    };
    // Whether this succeeds is not looked at.
    let _ = eprintln!(rt; "drop_empty_adds: {failure}");
}
