// Where the statements of a listing stand.
ghost use Rattle.std.specs.Prelude.{◌≡◌, ℕ, ◌<◌, ◌+◌, ◌^◌, IfSome, List, nat_lt};
ghost use Rattle.cap_format.specs.SetBounds.{up_to};
ghost use Rattle.asm_text.specs.Ranges.{HasRanges};
ghost use Rattle.asm_image.specs.Places.{natural, is_alignment, gap, size_of, bss_of, counted_of, is_bss, here, place_in, grown, begun_by, open_after};
ghost use Rattle.asm_image.specs.Layout.{IsBounded};

use crate::strings::string_size;
use asm_text::{Item, What};
use cap_format::GRANULE_BYTES;

/// The most segments of a source.
pub const MOST_SEGMENTS: usize = 15;

/// The bytes of an instruction.
pub const INSTRUCTION_BYTES: u8 = 4;

/// The greatest number of `.align`.
pub const MOST_ALIGNMENT: u16 = 4096;

/// The segment in which a statement stands, by the statements before it. Places and sizes are in bytes.
#[derive(Clone, Copy, Debug, PartialEq, Eq)]
pub struct OpenSegment {
    /// The line of its `.segment`.
    pub line: u64,
    /// Where it begins in the region.
    pub start: u128,
    /// The rights of its pages: r is 4, w is 2 and x is 1.
    pub rights: u8,
    /// The bytes of its part of the file so far.
    pub size: u128,
    /// The bytes behind them so far.
    pub bss: u128,
    /// Whether it has a byte that counts.
    pub counts: bool,
    /// Whether `.bss` has come.
    pub full: bool,
}

impl OpenSegment {
    /// The place of the next statement in the region.
    pub fn here(&self) -> u128
        requires { here self.now < 2 ^ 127 }
        ensures { result ≡ here self.now }
    {
        self.start + self.size + self.bss
    }
}

/// A number, and 0 for one that is negative.
pub fn natural(n: i128) -> u128
    ensures { result ≡ natural n }
{
    n.max(0) as u128
}

/// A number rounded up to a multiple.
pub fn up_to(n: u128, multiple: u128) -> u128
    requires some { 0 < multiple }
    requires fits { n + multiple < 2 ^ 128 }
    ensures { result ≡ up_to n multiple }
{
    (n + (multiple - 1)) / multiple * multiple
}

/// Whether a number is one of `.align`: 1, 2, 4 and so on to [`MOST_ALIGNMENT`].
pub fn is_alignment(to: i128) -> bool
    ensures { result ≡ is_alignment to }
{
    let most = i128::from(MOST_ALIGNMENT);
    0 < to && to <= most && most % to == 0
}

/// The zeros from a place up to a multiple.
pub fn gap(at: u128, to: i128) -> u128
    requires at { at < 2 ^ 127 }
    ensures is { result ≡ gap at to }
    ensures small { result < MOST_ALIGNMENT }
{
    if is_alignment(to) {
        up_to(at, natural(to)) - at
    } else {
        0
    }
}

/// The bytes that a statement at a place takes in the file's part of its segment.
pub fn size_of(text: &[u8], at: u128, what: &What) -> u128
    requires ranges { HasRanges what.now }
    requires at { at < 2 ^ 127 }
    ensures is { result ≡ size_of text.now at what.now }
    ensures small { result + bss_of what.now < 2 ^ 64 }
{
    match *what {
        What::Bytes { size, .. } => u128::from(size),
        What::Ascii { text: span } => string_size(text, span) as u128,
        What::Space { count } => natural(count),
        What::Align { to } => gap(at, to),
        What::Cap { .. } => GRANULE_BYTES as u128,
        What::Instr { .. } => u128::from(INSTRUCTION_BYTES),
        What::Label { .. } | What::Segment { .. } | What::Entry { .. } | What::Bss { .. } => 0,
    }
}

/// The bytes that a statement takes behind the file's part of its segment.
pub fn bss_of(what: &What) -> u128
    ensures { result ≡ bss_of what.now }
{
    match *what {
        What::Bss { count } => natural(count),
        _ => 0,
    }
}

// Whether some byte of a statement counts.
fn counts(size: u128, what: &What) -> bool
    ensures { (text : List ℕ) (at : ℕ) → size ≡ size_of text at what.now → result ≡ nat_lt 0 (counted_of text at what.now) }
{
    match *what {
        What::Align { .. } => false,
        _ => size > 0 || bss_of(what) > 0,
    }
}

// The segment behind a statement in it.
fn grown(text: &[u8], what: &What, current: OpenSegment) -> OpenSegment
    requires ranges { HasRanges what.now }
    requires here { here current < 2 ^ 127 }
    ensures is { result ≡ grown text.now what.now current }
    ensures small { here result < here current + 2 ^ 64 }
{
    let size = size_of(text, current.here(), what);
    OpenSegment {
        size: current.size + size,
        bss: current.bss + bss_of(what),
        counts: current.counts || counts(size, what),
        full: current.full || matches!(what, What::Bss { .. }),
        ..current
    }
}

/// The segment that an item begins, if it is a `.segment`.
pub fn begun(item: &Item) -> Option<OpenSegment>
    ensures { result ≡ begun_by item.now }
{
    let What::Segment { at, rights } = item.what else {
        return None;
    };
    Some(OpenSegment {
        line: item.line,
        start: natural(at),
        rights,
        size: 0,
        bss: 0,
        counts: false,
        full: false,
    })
}

/// The segment that is open behind an item.
pub fn open_after(text: &[u8], item: &Item, current: Option<OpenSegment>) -> Option<OpenSegment>
    requires ranges { HasRanges item.now.what }
    requires here { IfSome current (λ segment. here segment < 2 ^ 127) }
    ensures is { result ≡ open_after text.now item.now current }
    ensures bounded { (count : ℕ) → IsBounded count current → IsBounded (count + 1) result }
{
    match (begun(item), current) {
        (Some(new), _) => Some(new),
        (None, Some(current)) => Some(grown(text, &item.what, current)),
        (None, None) => None,
    }
}

/// The place of the next statement; 0 where no segment is open.
pub fn place_in(current: Option<OpenSegment>) -> u128
    requires { IfSome current (λ segment. here segment < 2 ^ 127) }
    ensures { result ≡ place_in current }
{
    match current {
        None => 0,
        Some(segment) => segment.here(),
    }
}
