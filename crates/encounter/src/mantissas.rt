//! The division of a mantissa by a whole number: what crate `division` (request #107 of document 02) has in common with the steps.
ghost use Rattle.std.specs.Prelude.{◌≡◌};
ghost use Rattle.encounter.specs.Mantissas.{mantissa_over};

use crate::arithmetic::scaled;
use exact::Scaled;

/// D or U of m / k, for a mantissa m of 32 bits and a k that is not 0; zero for every other m and k. Zero and no Option, as `mantissa_over` has it: callers take `divide`
/// of crate `division`, which refuses those.
pub fn over(up: bool, m: u32, k: u32) -> Scaled
    ensures { result ≡ mantissa_over up m k }
{
    if k == 0 || m < 2147483648 {
        return Scaled::ZERO;
    }
    scaled::over(up, Scaled { m, e: 0 }, u64::from(k)).number
}
