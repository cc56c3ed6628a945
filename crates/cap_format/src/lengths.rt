// Lengths whose bounds are exact, and the addresses at which they are.
ghost use Rattle.std.specs.Prelude.{◌≡◌};
ghost use Rattle.cap_format.specs.SetBounds.{rounded_length, align_mask};

use crate::set_bounds::{LEAST_ROUNDED, high_end, least_exponent};

/// The least length from `n` on, in bytes, whose bounds are exact at an address that keeps the mask that
/// [`align_mask`] gives for `n`. Below 4096 it is `n`.
///
/// It is taken modulo `2^64`: where the least length is `2^64`, the most that it can be, this is 0.
pub fn rounded_length(n: u64) -> u64
    ensures { result ≡ rounded_length n }
{
    if n < LEAST_ROUNDED {
        n
    } else {
        (high_end(0, n, least_exponent(0, n)) % (1 << 64)) as u64
    }
}

/// The mask that an address has to keep so that bounds of `n` bytes, rounded up, are exact from it on: bounds of the
/// length that [`rounded_length`] gives before it is taken modulo `2^64`. Bounds of `n` bytes need not be.
///
/// An address keeps the mask where it has no bit that the mask lacks, and the mask lacks low bits alone. Below 4096
/// bytes it has all 64 bits.
pub fn align_mask(n: u64) -> u64
    ensures { result ≡ align_mask n }
{
    if n < LEAST_ROUNDED {
        u64::MAX
    } else {
        u64::MAX << (least_exponent(0, n) + 3)
    }
}
