// New bounds for some bytes: their exponent, their ends and their bits.
ghost use Rattle.std.specs.Prelude.{◌≡◌, ◌<◌, ◌≤◌, ◌^◌, ◌+◌, ◌==◌, ◌&&◌};
ghost use Rattle.cap_format.specs.SetBounds.{low_end, high_end, exponent_for, bounds_bits, bounds_for, bounded_base, bounded_top};

// The least size whose bounds have an internal exponent, in bytes.
pub const LEAST_ROUNDED: u64 = 4096;

// The ends of new bounds, in bytes, and the 27 bits that say them: IE, T and B.
#[derive(Clone, Copy)]
pub struct NewBounds {
    pub base: u128,
    pub top: u128,
    pub bits: u64,
}

impl NewBounds {
    // Whether they are just these bytes.
    pub fn are_just(self, address: u64, size: u64) -> bool
        ensures { result ≡ ((self.base == address) && (self.top == address + size)) }
    {
        self.base == u128::from(address) && self.top == u128::from(address) + u128::from(size)
    }
}

// The address rounded down to a multiple of `2^(exponent + 3)` bytes.
fn low_end(address: u64, exponent: u32) -> u128
    requires { exponent < 64 }
    ensures is { result ≡ low_end exponent address }
    ensures low { result ≤ address }
{
    let unit = 1u128 << (exponent + 3);
    u128::from(address) / unit * unit
}

// The end of the bytes from the address on, rounded up to a multiple of `2^(exponent + 3)` bytes.
pub fn high_end(address: u64, size: u64, exponent: u32) -> u128
    requires { exponent < 64 }
    ensures is { result ≡ high_end exponent address size }
    ensures high { address + size ≤ result }
    ensures small { result < 2 ^ 68 }
{
    let unit = 1u128 << (exponent + 3);
    let end = u128::from(address) + u128::from(size);
    (end + (unit - 1)) / unit * unit
}

// The least exponent for bounds of this size, which is at least `LEAST_ROUNDED`. It is below 53.
//
// The place of the size's top bit gives it, but where rounding outwards makes the bounds longer by one more bit.
pub fn least_exponent(address: u64, size: u64) -> u32
    requires { LEAST_ROUNDED ≤ size }
    ensures is { result ≡ exponent_for address size }
    ensures small { result < 53 }
{
    let exponent = 51 - size.leading_zeros();
    let length = high_end(address, size, exponent) - low_end(address, exponent);
    if length < 1u128 << (exponent + 13) {
        exponent
    } else {
        exponent + 1
    }
}

// The bits of IE, T and B, for bounds whose exponent does not stand in them. The ends are in bytes.
fn plain_bits(top: u128, bottom: u128) -> u64
    ensures { result ≡ bounds_bits 0 0 top bottom }
{
    ((top % (1 << 12)) << 14 | bottom % (1 << 14)) as u64
}

// The bits of IE, T and B, for bounds with an internal exponent. The ends are in units of `2^exponent` bytes.
fn internal_bits(exponent: u32, top: u128, bottom: u128) -> u64
    requires { exponent < 64 }
    ensures { result ≡ bounds_bits 1 exponent top bottom }
{
    let high = top % (1 << 12) + u128::from(exponent / 8);
    let low = bottom % (1 << 14) + u128::from(exponent % 8);
    ((1 << 26) + (high << 14) + low) as u64
}

// The bounds of fewer than `LEAST_ROUNDED` bytes: just these.
fn exact_bounds(address: u64, size: u64) -> NewBounds
    requires { size < LEAST_ROUNDED }
    ensures base { result.base ≡ bounded_base address size }
    ensures top { result.top ≡ bounded_top address size }
    ensures bits { result.bits ≡ bounds_for address size }
{
    let base = u128::from(address);
    let top = base + u128::from(size);
    NewBounds {
        base,
        top,
        bits: plain_bits(top, base),
    }
}

// The bounds of `LEAST_ROUNDED` bytes or more, with both ends rounded outwards.
fn rounded_bounds(address: u64, size: u64) -> NewBounds
    requires { LEAST_ROUNDED ≤ size }
    ensures base { result.base ≡ bounded_base address size }
    ensures top { result.top ≡ bounded_top address size }
    ensures bits { result.bits ≡ bounds_for address size }
{
    let exponent = least_exponent(address, size);
    let base = low_end(address, exponent);
    let top = high_end(address, size, exponent);
    NewBounds {
        base,
        top,
        bits: internal_bits(exponent, top >> exponent, base >> exponent),
    }
}

// The bounds of so many bytes from the address on.
pub fn new_bounds(address: u64, size: u64) -> NewBounds
    ensures base { result.base ≡ bounded_base address size }
    ensures top { result.top ≡ bounded_top address size }
    ensures bits { result.bits ≡ bounds_for address size }
{
    if size < LEAST_ROUNDED {
        exact_bounds(address, size)
    } else {
        rounded_bounds(address, size)
    }
}
