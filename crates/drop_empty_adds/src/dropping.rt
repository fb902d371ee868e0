//! A script without its adds of count 0, in place.
ghost use Rattle.std.specs.Prelude.{◌≡◌, ◌+◌, ◌≤◌, length};
ghost use Rattle.drop_empty_adds.specs.Dropping.{first_length, is_empty_add, InPlace};
ghost use Rattle.drop_empty_adds.specs.Claims.{Claims};
ghost use Rattle.drop_empty_adds.specs.Private.OneRecord.{whole_length, KeptOrDropped};

use exact::LARGEST_SCRIPT;
use exact::kinds::Kind;

// The byte of an add.
const ADD: u8 = Kind::Add as u8;

// The bytes of a whole record of this kind, or none where there is no such kind.
#[tactic(auto, unfolding(crate::specs::Private::OneRecord::whole_length, exact::specs::Records::is_kind, exact::specs::Records::body_length))]
fn whole_length(kind: u8) -> Option<usize>
    ensures { result ≡ whole_length kind }
{
    let kind = Kind::try_from(kind).ok()?;
    Some(1 + kind.body_length())
}

// The bytes of the first record. Where it is refused as 1 or 2, they are all that there are.
#[tactic(auto, using(crate::proofs::Lengths::of_none, crate::proofs::Lengths::of_no_kind, crate::proofs::Lengths::of_whole))]
fn first_length(bytes: &[u8]) -> usize
    ensures { result ≡ first_length bytes.now }
{
    match bytes {
        [] => 0,
        [kind, ..] => match whole_length(*kind) {
            Some(whole) => whole.min(bytes.len()),
            None => bytes.len(),
        },
    }
}

// Whether the first record is an add of count 0.
#[tactic(auto, using(crate::proofs::EmptyAdds::of_few, crate::proofs::EmptyAdds::of_other_kind, crate::proofs::EmptyAdds::of_low_byte, crate::proofs::EmptyAdds::of_high_byte, crate::proofs::EmptyAdds::of_no_count))]
fn is_empty_add(bytes: &[u8]) -> bool
    ensures { result ≡ is_empty_add bytes.now }
{
    matches!(bytes, [ADD, 0, 0, ..])
}

// Keeps a record of n bytes, moved down to an earlier position, or drops it where it is an add of count 0. Answers the position past what is kept.
fn keep(script: &mut [u8], from: usize, to: usize, n: usize) -> usize
    requires { (to ≤ from) × (from + n ≤ length script.old) }
    ensures { KeptOrDropped script.old script.new from to n result }
{
    if is_empty_add(&script[from..from + n]) {
        return to;
    }
    script.copy_within(from..from + n, to);
    to + n
}

/// Drops the adds of count 0 and moves the other records together. Answers how many bytes the new script has; one that is too long has none, and stays as it is.
/// A number and no slice: the contract says what all of the lent bytes are afterwards, which a slice that is lent back would leave open; 0 and no
/// Option where it is too long, as `InPlace` has it.
#[tactic(auto, using(crate::proofs::Moving::too_long_left, crate::proofs::Moving::finished, crate::proofs::Claiming::claims))]
pub fn drop_empty_adds(script: &mut [u8]) -> usize
    ensures in_place { InPlace script.old script.new result }
    ensures claims { Claims }
{
    if LARGEST_SCRIPT < script.len() {
        return 0;
    }
    // No iterator: the script is changed while it is read.
    let mut from = 0;
    let mut to = 0;
    while from < script.len() {
        let n = first_length(&script[from..]);
        to = keep(script, from, to, n);
        from += n;
    }
    to
}
