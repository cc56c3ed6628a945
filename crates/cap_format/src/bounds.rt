// The bounds that fields of a capability stand for.
ghost use Rattle.std.specs.Prelude.{◌≡◌, ◌<◌, ◌+◌, ◌*◌, ◌/◌, ◌%◌, ◌^◌, pos, ◌<ℤ◌};
ghost use Rattle.cap_format.specs.Pattern.{base_at, span_of};

// The size of a window of bases: `2^(exponent + 14)` bytes.
fn window_bytes(exponent: u32) -> i128
    requires { exponent < 64 }
    ensures is { result ≡ pos (2 ^ (exponent + 14)) }
    ensures small { result <ℤ pos (2 ^ 78) }
{
    (1u128 << (exponent + 14)) as i128
}

// The number that has the address's bits from `exponent + 14` on, and those of B below.
fn nearest_base(address: u64, exponent: u32, bottom: u32) -> i128
    requires exponent { exponent < 64 }
    requires bottom { bottom < 2 ^ 14 }
    ensures is { result ≡ pos (address / 2 ^ (exponent + 14) * 2 ^ (exponent + 14) + bottom * 2 ^ exponent) }
    ensures small { result <ℤ pos (2 ^ 79) }
{
    let address = u128::from(address);
    let window = 1u128 << (exponent + 14);
    let offset = u128::from(bottom) << exponent;
    (address / window * window + offset) as i128
}

// The address's three bits from `exponent + 11` on.
fn block_in_window(address: u64, exponent: u32) -> u32
    requires { exponent < 64 }
    ensures is { result ≡ address / 2 ^ (exponent + 11) % 8 }
    ensures small { result < 8 }
{
    (u128::from(address) / (1u128 << (exponent + 11)) % 8) as u32
}

// The base in bytes, for this address, this exponent and this B.
//
// The base has the address's bits from `exponent + 14` on. These are corrected by one where the base and
// the address lie in different multiples of `2^(exponent + 14)`, which the three bits below them tell.
pub fn corrected_base(address: u64, exponent: u32, bottom: u32) -> i128
    requires exponent { exponent < 64 }
    requires bottom { bottom < 2 ^ 14 }
    ensures { result ≡ base_at address exponent bottom }
{
    let near = nearest_base(address, exponent, bottom);
    let window = window_bytes(exponent);
    let address_block = block_in_window(address, exponent);
    let base_block = bottom / 2048;
    if base_block == 0 && address_block == 7 {
        near + window
    } else if base_block > address_block + 1 {
        near - window
    } else {
        near
    }
}

// T less the low 12 bits of B, plus 4096 if that is negative.
pub fn span(top: u32, bottom: u32) -> u32
    requires { top < 2 ^ 12 }
    ensures span { result ≡ span_of top bottom }
    ensures short { result < 4096 }
{
    let bottom = bottom % 4096;
    if top < bottom {
        top + 4096 - bottom
    } else {
        top - bottom
    }
}
