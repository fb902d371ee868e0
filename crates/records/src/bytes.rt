//! Little-endian numbers of a record's body, of two widths and a signed one: a const parameter would be no plainer for two.
ghost use Rattle.std.specs.Prelude.{◌≡◌, ◌+◌, ◌≤◌, length};
ghost use Rattle.exact.specs.Records.{u16_at, u32_at, signed};

pub fn u16_at(body: &[u8], at: usize) -> u16
    requires { at + 2 ≤ length body.now }
    ensures { result ≡ u16_at body.now at }
{
    u16::from_le_bytes([body[at], body[at + 1]])
}

pub fn u32_at(body: &[u8], at: usize) -> u32
    requires { at + 4 ≤ length body.now }
    ensures { result ≡ u32_at body.now at }
{
    u32::from_le_bytes([body[at], body[at + 1], body[at + 2], body[at + 3]])
}

#[tactic(auto, using(crate::proofs::Requests::signed_is))]
pub fn i32_at(body: &[u8], at: usize) -> i32
    requires { at + 4 ≤ length body.now }
    ensures { result ≡ signed (u32_at body.now at) }
{
    u32_at(body, at).cast_signed()
}
