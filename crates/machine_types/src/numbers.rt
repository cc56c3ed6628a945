// Numbers in text.
ghost use Rattle.std.specs.Prelude.{◌≡◌, ◌≤◌, ◌<◌, ◌^◌, ◌↔◌, length, slice_index, IsTrue, MatchOption};
ghost use Rattle.std.specs.Str.Parse.{IsNumeral, digits_value};
ghost use Rattle.machine_types.specs.DecimalNumbers.{number_in};

// The most digits that are read.
const MOST_DIGITS: usize = 18;

/// The number that a text is: decimal digits without a sign or a leading zero. None comes exactly where it is none from the least to
/// the most, which has at most 18 digits.
pub fn read_number(text: &[u8], least: u64, most: u64) -> Option<u64>
    requires { most < 10 ^ 18 }
    ensures { result ≡ number_in least most text.now }
{
    if text.len() > MOST_DIGITS || has_leading_zero(text) {
        return None;
    }
    let n = read_digits(text)?;
    if least <= n && n <= most {
        Some(n)
    } else {
        None
    }
}

// The first of several bytes is the digit 0.
fn has_leading_zero(text: &[u8]) -> bool
    ensures { IsTrue result ↔ ((1 < length text.now) × (slice_index text.now 0 ≡ 48)) }
{
    text.len() > 1 && text[0] == b'0'
}

// The number that at most 18 digits write. None: there is none, or another byte.
fn read_digits(text: &[u8]) -> Option<u64>
    requires { length text.now ≤ 18 }
    ensures { MatchOption result (¬ (IsNumeral 10 text.now)) (λ n. IsNumeral 10 text.now × (n ≡ digits_value 10 text.now)) }
{
    if text.is_empty() {
        return None;
    }
    let mut n = 0;
    for byte in text {
        if !byte.is_ascii_digit() {
            return None;
        }
        n = n * 10 + u64::from(*byte - b'0');
    }
    Some(n)
}
