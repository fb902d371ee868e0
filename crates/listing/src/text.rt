//! The text of one line, put together from its parts.
ghost use Rattle.std.specs.Prelude.{◌≡◌, ◌≤◌, [], ◌++◌, length};
ghost use Rattle.exact.specs.Decimals.{decimal_of};
ghost use Rattle.listing.specs.Line.{number_text, integer, scaled_text, class_text, last_digit, decimal_text, room};
ghost use Rattle.listing.specs.Put.{RoomFor};

use crate::ROOM;
use encounter::decimals::to_decimal;
use encounter::state::Class;
use exact::Scaled;
use std::marker::Model;

/// The bytes put so far, which is all that a clause sees. Each method's premise names its own text. Not std's `fmt::Write`: what `write!` writes, its contract does not
/// say. Not an `ArrayVec`: two fields need no further crate below the library.
#[derive(Drop)]
pub struct Line {
    bytes: [u8; ROOM],
    len: usize,
}

impl Model for Line {
    ghost use Rattle.std.specs.Prelude.{ℕ, List, ◌≤◌, take};
    ghost use Rattle.listing.specs.Line.{room};

    ghost Value = { List ℕ };

    ghost view = { λ l. take l.len l.bytes };

    ghost invariant = { λ l. l.len ≤ room };
}

impl Line {
    pub fn new() -> Line
        ensures { result ≡ [] }
    {
        Line {
            bytes: [0; ROOM],
            len: 0,
        }
    }

    pub fn as_bytes(&self) -> &[u8]
        ensures value { result.now ≡ self.now }
        ensures short { length result.now ≤ room }
    {
        &self.bytes[..self.len]
    }

    pub fn text(&mut self, text: &[u8])
        requires { RoomFor self.old text.now }
        ensures { self.new ≡ self.old ++ text.now }
    {
        let end = self.len + text.len();
        self.bytes[self.len..end].copy_from_slice(text);
        self.len = end;
    }

    /// The digits of x.
    #[tactic(auto, using(crate::proofs::NumberTexts::digits_decimal))]
    pub fn number(&mut self, x: u64)
        requires { RoomFor self.old (number_text x) }
        ensures { self.new ≡ self.old ++ number_text x }
    {
        let mut digits = [0; 20];
        let n = io::decimal(x, &mut digits);
        self.text(&digits[..n]);
    }

    /// e, with a minus sign where it is negative.
    #[tactic(auto, unfolding(crate::specs::Line::integer))]
    pub fn integer(&mut self, e: i32)
        requires { RoomFor self.old (integer e) }
        ensures { self.new ≡ self.old ++ integer e }
    {
        if e < 0 {
            self.text(b"-");
        }
        self.number(u64::from(e.unsigned_abs()));
    }

    /// m and e.
    #[tactic(auto, using(crate::proofs::Putting::joined), unfolding(crate::specs::Line::scaled_text))]
    pub fn scaled(&mut self, x: Scaled)
        requires { RoomFor self.old (scaled_text x) }
        ensures { self.new ≡ self.old ++ scaled_text x }
    {
        self.number(u64::from(x.m));
        self.text(b" ");
        self.integer(x.e);
    }

    #[tactic(auto, unfolding(crate::specs::Line::class_text))]
    pub fn class(&mut self, class: Class)
        requires { RoomFor self.old (class_text class) }
        ensures { self.new ≡ self.old ++ class_text class }
    {
        self.text(match class {
            Class::Clear => b"clear",
            Class::Alert => b"alert",
            Class::Open => b"open",
        });
    }

    /// x in decimal, as a lower end or, where up is true, as an upper one.
    #[tactic(auto, using(crate::proofs::EndsInDecimal::nine), unfolding(crate::specs::Line::decimal_text))]
    pub fn decimal(&mut self, up: bool, x: Scaled)
        requires { RoomFor self.old (decimal_text (decimal_of up x)) }
        ensures { self.new ≡ self.old ++ decimal_text (decimal_of up x) }
    {
        let d = to_decimal(up, x);
        self.text(&[
            last_digit(d.digits / 1000),
            b'.',
            last_digit(d.digits / 100),
            last_digit(d.digits / 10),
            last_digit(d.digits),
            b'e',
            b'-',
            last_digit(d.power / 10),
            last_digit(d.power),
        ]);
    }
}

// The last decimal digit of n.
fn last_digit(n: u32) -> u8
    ensures { result ≡ last_digit n }
{
    b'0' + (n % 10) as u8
}
