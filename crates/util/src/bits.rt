//! Bit fields of unsigned integers.
ghost use Rattle.std.specs.Prelude.{◌≡◌, ◌≤◌};
ghost use Rattle.util.specs.Bits.{bit_field};

use crate::unsigned::Unsigned;

// The number that stands in the bits of x from number lo on and below number hi, where x has the given width. It is 0 unless lo < hi and hi is at
// most the width.
#[tactic(auto, using(crate::proofs::Fields::shift_mask, crate::proofs::Fields::no_bits, crate::proofs::Fields::past_width))]
fn field(width: u32, x: u32, lo: u32, hi: u32) -> u32
    requires { width ≤ 32 }
    ensures { result ≡ bit_field width x lo hi }
{
    if lo < hi && hi <= width {
        (x >> lo) & (u32::MAX >> (32 - (hi - lo)))
    } else {
        0
    }
}

/// The same of a number of type T.
#[tactic(auto, using(crate::proofs::Fields::field_fits))]
pub fn bits<T: Unsigned>(x: T, lo: u32, hi: u32) -> T
    ensures { T.number result ≡ bit_field T.BITS (T.number x) lo hi }
{
    T::of_u32(field(T::BITS, x.into(), lo, hi))
}
