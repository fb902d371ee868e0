//! A script from standard input.
#![tactic(auto)]

ghost use Rattle.streams.specs.Reading.{AllBytes, NextBytes, ReadInto, ScriptIn};

use exact::LARGEST_SCRIPT;
use std::io;
use std::io::{ErrorKind, Read};

/// The bytes kept for a script: one more than it may have, so that a script that fills them is too long.
pub const KEPT: usize = LARGEST_SCRIPT + 1;

// How many times a read that is interrupted is tried, so that reading ends whatever the input does.
const TRIES: u32 = 1000000;

// One read, of no bytes where the input is at its end. An interrupted read is tried again; where every try is interrupted, it failed.
fn read_some<R: Read>(input: &mut R, buf: &mut [u8]) -> io::Result<usize>
    ensures within { ReadInto buf.new result }
    ensures bytes { NextBytes (R.remaining input.old) (R.remaining input.new) buf.new result }
{
    for _ in 0..TRIES {
        match input.read(buf) {
            Err(e) if e.kind() == ErrorKind::Interrupted => {}
            ended => return ended,
        }
    }
    Err(ErrorKind::Interrupted.into())
}

/// Reads the script: up to the end of the input, or until the buffer is full. Answers how many bytes it has, and not the part of the buffer that it fills, since
/// the promises are about the buffer after the call.
pub fn read_script<R: Read>(input: &mut R, buf: &mut [u8; KEPT]) -> io::Result<usize>
    ensures within { ScriptIn buf.new result }
    ensures bytes { AllBytes (R.remaining input.old) (R.remaining input.new) buf.new result }
{
    let mut done = 0;
    // `read_exact` says nothing of an input that ends early, and `read_to_end` needs a heap
    while done < KEPT {
        match read_some(input, &mut buf[done..])? {
            0 => break,
            n => done += n,
        }
    }
    Ok(done)
}
