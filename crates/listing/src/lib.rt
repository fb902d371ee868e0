//! The text of a line of a listing, and the listing of a script in pieces.
#![tactic(auto)]

ghost use Rattle.std.specs.Prelude.{◌≡◌, ◌++◌};
ghost use Rattle.listing.specs.Line.{ends_and_class, ends_in_decimal, object_and_time, added_fields, read_text, is_begin, outcome_text, line};
ghost use Rattle.listing.specs.Put.{RoomFor, PutLine};

pub mod script;
mod text;

use crate::text::Line;
use encounter::state::Answer;

/// The bytes that a line is given: no line has more.
pub const ROOM: usize = 150;

impl Line {
    // m and e of both ends, and the class.
    #[tactic(auto, using(crate::proofs::Putting::joined), unfolding(crate::specs::Line::ends_and_class))]
    fn ends_and_class(&mut self, a: Answer)
        requires { RoomFor self.old (ends_and_class a) }
        ensures { self.new ≡ self.old ++ ends_and_class a }
    {
        self.scaled(a.lower);
        self.text(b" ");
        self.scaled(a.upper);
        self.text(b" ");
        self.class(a.class);
    }

    // Both ends in decimal.
    #[tactic(auto, using(crate::proofs::Putting::joined), unfolding(crate::specs::Line::ends_in_decimal, encounter::specs::Session::lower_decimal, encounter::specs::Session::upper_decimal))]
    fn ends_in_decimal(&mut self, a: Answer)
        requires { RoomFor self.old (ends_in_decimal a) }
        ensures { self.new ≡ self.old ++ ends_in_decimal a }
    {
        self.decimal(false, a.lower);
        self.text(b" ");
        self.decimal(true, a.upper);
    }

    // The object number and the time.
    #[tactic(auto, using(crate::proofs::Putting::joined), unfolding(crate::specs::Line::object_and_time))]
    fn object_and_time(&mut self, a: Answer)
        requires { RoomFor self.old (object_and_time a) }
        ensures { self.new ≡ self.old ++ object_and_time a }
    {
        self.number(u64::from(a.object));
        self.text(b" ");
        self.number(u64::from(a.time));
    }

    // What requests add to the line of a read.
    #[tactic(auto, using(crate::proofs::Putting::joined), unfolding(crate::specs::Line::added_fields))]
    fn added_fields(&mut self, a: Answer)
        requires { RoomFor self.old (added_fields a) }
        ensures { self.new ≡ self.old ++ added_fields a }
    {
        self.ends_in_decimal(a);
        self.text(b" ");
        self.object_and_time(a);
        self.text(b" ");
        self.number(u64::from(a.exact));
    }

    // What a read answered.
    #[tactic(auto, using(crate::proofs::Putting::joined), unfolding(crate::specs::Line::read_text))]
    fn read(&mut self, a: Answer)
        requires { RoomFor self.old (read_text a) }
        ensures { self.new ≡ self.old ++ read_text a }
    {
        self.text(b"read ");
        self.number(u64::from(a.N));
        self.text(b" ");
        self.ends_and_class(a);
        self.text(b" ");
        self.added_fields(a);
    }

    // What a record was answered, by its kind byte, which may be any.
    #[tactic(auto, using(crate::proofs::Putting::joined), unfolding(crate::specs::Line::outcome_text, crate::specs::Line::taken_text, crate::specs::Line::is_begin))]
    fn outcome(&mut self, kind: u8, a: Answer)
        requires { RoomFor self.old (outcome_text kind a) }
        ensures { self.new ≡ self.old ++ outcome_text kind a }
    {
        if a.refusal != 0 {
            self.text(b"refused ");
            self.number(u64::from(a.refusal));
            return;
        }
        // matched as a byte: by Kind the last arm is of two cases, and its proof was not found
        match kind {
            1 | 4 => self.text(b"begun 1"),
            2 => {
                self.text(b"added ");
                self.number(u64::from(a.N));
            }
            _ => self.read(a),
        }
    }

    // All of the line.
    #[tactic(auto, using(crate::proofs::Putting::joined), unfolding(crate::specs::Line::line))]
    fn record(&mut self, offset: usize, kind: u8, a: Answer)
        requires { RoomFor self.old (line offset kind a) }
        ensures { self.new ≡ self.old ++ line offset kind a }
    {
        self.number(offset as u64);
        self.text(b" ");
        self.outcome(kind, a);
        self.text(b"\n");
    }
}

/// The line of a record, from index at on: the offset of its kind byte, that byte and its answer. Answers the index past the line, or at where fewer than
/// ROOM bytes are left: an index and no Option, and any kind byte, as `PutLine` promises it.
pub fn put_line(out: &mut [u8], at: usize, offset: usize, kind: u8, a: Answer) -> usize
    ensures { PutLine out.old out.new at offset kind a result }
{
    if out.len() < ROOM || out.len() - ROOM < at {
        return at;
    }
    let mut line = Line::new();
    line.record(offset, kind, a);
    let text = line.as_bytes();
    let end = at + text.len();
    out[at..end].copy_from_slice(text);
    end
}
