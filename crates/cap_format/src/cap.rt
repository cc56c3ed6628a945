// Capabilities.
ghost use Rattle.std.specs.Prelude.{◌≡◌, ◌<◌, ◌≤◌, ◌^◌, ◌+◌, ◌*◌, ◌/◌, ◌%◌, ◌==◌, ◌&&◌, ◌↔◌, IsTrue, bit_and, pos, ◌≤ℤ◌, ◌+ℤ◌, ◌-◌};
ghost use Rattle.cap_format.specs.Pattern.{address_of, meta_of, perms_of, kind_of, internal_of, top_field_of, bottom_field_of, exponent_of, top_mantissa_of, bottom_mantissa_of, length_mantissa_of, length_of, base_of, top_of, IsBase};

use crate::bounds::{corrected_base, span};
use crate::set_bounds::new_bounds;
use crate::{ALL_PERMISSIONS, EXECUTE, FIRST_REGION, MOST_REGIONS, REGION_BYTES};

/// A capability: 128 bits, and the tag that memory and registers keep out of band.
///
/// Any bits are a value of this type. The low 64 bits are the address. The high 64 bits, the *meta* half,
/// are, from bit 63 down: 16 permissions, 3 zeros, 18 bits of kind, IE, 12 bits of T and 14 bits of B.
#[derive(Clone, Copy, Debug, PartialEq, Eq)]
pub struct Cap {
    pub bits: u128,
    pub tag: bool,
}

/// What setting bounds gives.
#[derive(Clone, Copy, Debug, PartialEq, Eq)]
pub struct Bounded {
    /// The capability with the bounds.
    pub cap: Cap,
    /// Whether the bounds are just the bytes that were asked for: no end was rounded.
    pub exact: bool,
}

impl Cap {
    ghost use Rattle.cap_format.specs.Made.{null, from_int, capability_of, root, with_address};
    ghost use Rattle.cap_format.specs.Region.{region_start, IsInside};
    ghost use Rattle.cap_format.specs.SetBounds.{set_bounds, bounded_base, bounded_top};
    ghost use Rattle.cap_format.specs.Sealing.{with_perms_bits, with_kind_bits, and_perms, seal_entry, unseal_entry};
    ghost use Rattle.cap_format.specs.Moves.{moved, distance, IsMove};
    ghost use Rattle.cap_format.specs.Rights.{allows, holds};

    /// The null capability: all bits are zero, and there is no tag.
    pub fn null() -> Cap
        ensures { result ≡ null }
    {
        Cap {
            bits: 0,
            tag: false,
        }
    }

    /// An integer as a capability: null, but for its address.
    pub fn from_int(value: u64) -> Cap
        ensures { result ≡ from_int value }
    {
        Cap {
            bits: u128::from(value),
            tag: false,
        }
    }

    /// The capability of a whole region: tagged and plain, with the region's start as its address and its base, and
    /// the region's end as its top.
    ///
    /// `region` is below [`MOST_REGIONS`], and `perms` has only bits of [`ALL_PERMISSIONS`].
    pub fn root(region: u32, perms: u16) -> Cap
        requires region { region < MOST_REGIONS }
        requires perms { bit_and perms ALL_PERMISSIONS ≡ perms }
        ensures is { result ≡ root region perms }
        ensures tag { IsTrue result.tag }
        ensures address { address_of result.bits ≡ region_start region }
        ensures base { base_of result.bits ≡ pos (region_start region) }
        ensures top { top_of result.bits ≡ pos (region_start region + REGION_BYTES) }
        ensures perms { perms_of result.bits ≡ perms }
        ensures plain { kind_of result.bits ≡ 0 }
    {
        let start = FIRST_REGION + u64::from(region) * REGION_BYTES;
        Cap::covering(start, REGION_BYTES, perms)
    }

    // A tagged plain capability with these permissions, this address, and bounds of `size` bytes from there on,
    // rounded outwards where they can't be had exactly.
    fn covering(address: u64, size: u64, perms: u16) -> Cap
        ensures is { result ≡ capability_of address size perms }
        ensures address { address_of result.bits ≡ address }
        ensures base { base_of result.bits ≡ pos (bounded_base address size) }
        ensures top { top_of result.bits ≡ pos (bounded_top address size) }
        ensures perms { perms_of result.bits ≡ perms }
        ensures plain { kind_of result.bits ≡ 0 }
    {
        let bounds = new_bounds(address, size);
        Cap {
            bits: joined(u64::from(perms) << 48 | bounds.bits, address),
            tag: true,
        }
    }

    /// The address, in bytes.
    pub fn address(self) -> u64
        ensures { result ≡ address_of self.bits }
    {
        (self.bits % (1 << 64)) as u64
    }

    // The high 64 bits.
    fn meta(self) -> u64
        ensures { result ≡ meta_of self.bits }
    {
        (self.bits >> 64) as u64
    }

    /// The permissions, as 16 bits: those of [`ALL_PERMISSIONS`], and others without a meaning.
    pub fn perms(self) -> u16
        ensures { result ≡ perms_of self.bits }
    {
        (self.meta() >> 48) as u16
    }

    /// The kind: 0 for a plain capability, and 1 for a sealed entry. Other kinds, all below `2^18`, are sealed too.
    pub fn kind(self) -> u32
        ensures kind { result ≡ kind_of self.bits }
        ensures small { result < 2 ^ 18 }
    {
        ((self.meta() >> 27) % (1 << 18)) as u32
    }

    /// Whether this is a sealed entry.
    pub fn is_entry(self) -> bool
        ensures { IsTrue result ↔ (kind_of self.bits ≡ 1) }
    {
        self.kind() == 1
    }

    // Whether the exponent stands in the low bits of T and B.
    fn is_internal(self) -> bool
        ensures { IsTrue result ↔ (internal_of self.bits ≡ 1) }
    {
        (self.meta() >> 26) % 2 == 1
    }

    // T, as it stands: 12 bits.
    fn top_field(self) -> u32
        ensures { result ≡ top_field_of self.bits }
    {
        ((self.meta() >> 14) % (1 << 12)) as u32
    }

    // B, as it stands: 14 bits.
    fn bottom_field(self) -> u32
        ensures { result ≡ bottom_field_of self.bits }
    {
        (self.meta() % (1 << 14)) as u32
    }

    /// The exponent, at most 63: base and length are multiples of 2 to this power, in bytes.
    pub fn exponent(self) -> u32
        ensures exponent { result ≡ exponent_of self.bits }
        ensures small { result < 64 }
    {
        if self.is_internal() {
            8 * (self.top_field() % 8) + self.bottom_field() % 8
        } else {
            0
        }
    }

    // T, without the bits of an internal exponent.
    fn top_mantissa(self) -> u32
        ensures top { result ≡ top_mantissa_of self.bits }
        ensures small { result < 2 ^ 12 }
    {
        let top = self.top_field();
        if self.is_internal() {
            top - top % 8
        } else {
            top
        }
    }

    // B, without the bits of an internal exponent.
    fn bottom_mantissa(self) -> u32
        ensures bottom { result ≡ bottom_mantissa_of self.bits }
        ensures small { result < 2 ^ 14 }
    {
        let bottom = self.bottom_field();
        if self.is_internal() {
            bottom - bottom % 8
        } else {
            bottom
        }
    }

    // The length, in units of 2 to the exponent. It is below `2^13`.
    fn length_mantissa(self) -> u32
        ensures length { result ≡ length_mantissa_of self.bits }
        ensures small { result < 2 ^ 13 }
    {
        let span = span(self.top_mantissa(), self.bottom_mantissa());
        if self.is_internal() {
            span + 4096
        } else {
            span
        }
    }

    /// The length of the bounds, in bytes. It is below `2^76`.
    pub fn length(self) -> u128
        ensures length { result ≡ length_of self.bits }
        ensures small { result < 2 ^ 76 }
    {
        u128::from(self.length_mantissa()) << self.exponent()
    }

    /// The first address of the bounds, in bytes, as an integer without wrapping: it may be negative.
    ///
    /// It is the one number that is B times 2 to the exponent, modulo `2^(exponent + 14)`, and whose window
    /// holds the address.
    pub fn base(self) -> i128
        ensures is { IsBase self.bits result }
        ensures base { result ≡ base_of self.bits }
    {
        corrected_base(self.address(), self.exponent(), self.bottom_mantissa())
    }

    /// The end of the bounds, in bytes, as an integer without wrapping: it may be over `2^64`.
    pub fn top(self) -> i128
        ensures { result ≡ top_of self.bits }
    {
        self.top_from(self.base())
    }

    // The top, where the base is known.
    fn top_from(self, base: i128) -> i128
        requires { base ≡ base_of self.bits }
        ensures { result ≡ top_of self.bits }
    {
        base + self.length() as i128
    }

    /// The capability with another address, in bytes.
    ///
    /// The tag is kept exactly where it was set, the kind is 0, and base and top stay as they were. So it is
    /// kept for each address from the base to the top.
    pub fn with_address(self, a: u64) -> Cap
        ensures is { result ≡ with_address self a }
        ensures address { address_of result.bits ≡ a }
        ensures meta { meta_of result.bits ≡ meta_of self.bits }
        ensures tag { IsTrue result.tag
            ↔ (IsTrue self.tag × (kind_of self.bits ≡ 0) × (base_of result.bits ≡ base_of self.bits) × (top_of result.bits ≡ top_of self.bits)) }
        ensures within { IsTrue self.tag → kind_of self.bits ≡ 0 → base_of self.bits ≤ℤ pos a → pos a ≤ℤ top_of self.bits → IsTrue result.tag }
    {
        let moved = Cap {
            bits: joined(self.meta(), a),
            tag: self.tag,
        };
        Cap {
            bits: moved.bits,
            tag: self.tag && self.kind() == 0 && moved.has_bounds_of(self),
        }
    }

    /// Whether it has each of these permissions, given as bits, whatever its tag and its kind.
    pub fn allows(self, permissions: u16) -> bool
        ensures { result ≡ allows self.bits permissions }
    {
        self.perms() & permissions == permissions
    }

    /// Whether the `size` bytes from an address on lie within the bounds, whatever the tag and the kind. The end of
    /// the bytes does not wrap.
    pub fn holds(self, address: u64, size: u64) -> bool
        ensures { result ≡ holds self.bits address size }
    {
        let start = i128::from(address);
        let base = self.base();
        base <= start && start + i128::from(size) <= self.top_from(base)
    }

    /// Fewer permissions: those that the mask has too. No other bit changes.
    ///
    /// The tag is kept exactly where it was set and the kind is 0.
    pub fn and_perms(self, mask: u16) -> Cap
        ensures is { result ≡ and_perms self mask }
        ensures tag { IsTrue result.tag ↔ (IsTrue self.tag × (kind_of self.bits ≡ 0)) }
        ensures perms { perms_of result.bits ≡ bit_and (perms_of self.bits) mask }
        ensures address { address_of result.bits ≡ address_of self.bits }
        ensures base { base_of result.bits ≡ base_of self.bits }
        ensures top { top_of result.bits ≡ top_of self.bits }
        ensures kind { kind_of result.bits ≡ kind_of self.bits }
    {
        Cap {
            bits: self.with_perms(self.perms() & mask),
            tag: self.is_tagged_plain(),
        }
    }

    /// A sealed entry: the kind is 1. No other bit changes.
    ///
    /// The tag is kept exactly where it was set, the kind was 0, and it may execute.
    pub fn seal_entry(self) -> Cap
        ensures is { result ≡ seal_entry self }
        ensures tag { IsTrue result.tag ↔ (IsTrue self.tag × (kind_of self.bits ≡ 0) × IsTrue (allows self.bits EXECUTE)) }
        ensures kind { kind_of result.bits ≡ 1 }
        ensures perms { perms_of result.bits ≡ perms_of self.bits }
        ensures address { address_of result.bits ≡ address_of self.bits }
        ensures base { base_of result.bits ≡ base_of self.bits }
        ensures top { top_of result.bits ≡ top_of self.bits }
    {
        Cap {
            bits: self.with_kind(1),
            tag: self.may_be_entry(),
        }
    }

    /// The plain capability of a sealed entry: the kind is 0. No other bit changes, nor does the tag.
    pub fn unseal_entry(self) -> Cap
        requires { kind_of self.bits ≡ 1 }
        ensures is { result ≡ unseal_entry self }
        ensures tag { result.tag ≡ self.tag }
        ensures kind { kind_of result.bits ≡ 0 }
        ensures perms { perms_of result.bits ≡ perms_of self.bits }
        ensures address { address_of result.bits ≡ address_of self.bits }
        ensures base { base_of result.bits ≡ base_of self.bits }
        ensures top { top_of result.bits ≡ top_of self.bits }
    {
        Cap {
            bits: self.with_kind(0),
            tag: self.tag,
        }
    }

    /// Bounds of `n` bytes from the address on, rounded outwards where they can't be had exactly.
    ///
    /// The tag is kept exactly where it was set, the kind is 0, and the bytes lie within the old bounds. Then
    /// the new bounds lie within the old ones too.
    pub fn set_bounds(self, n: u64) -> Bounded
        ensures is { result ≡ set_bounds self n }
        ensures tag { IsTrue result.cap.tag ↔ (IsTrue self.tag × (kind_of self.bits ≡ 0) × IsTrue (holds self.bits (address_of self.bits) n)) }
        ensures address { address_of result.cap.bits ≡ address_of self.bits }
        ensures base { base_of result.cap.bits ≡ pos (bounded_base (address_of self.bits) n) }
        ensures top { top_of result.cap.bits ≡ pos (bounded_top (address_of self.bits) n) }
        ensures exact { IsTrue result.exact ↔ ((base_of result.cap.bits ≡ pos (address_of self.bits)) × (top_of result.cap.bits ≡ pos (address_of self.bits + n))) }
        ensures within { IsTrue result.cap.tag → (base_of self.bits ≤ℤ base_of result.cap.bits) × (top_of result.cap.bits ≤ℤ top_of self.bits) }
    {
        let address = self.address();
        let bounds = new_bounds(address, n);
        Bounded {
            cap: Cap {
                bits: self.with_bounds(bounds.bits),
                tag: self.may_have_bounds(address, n),
            },
            exact: bounds.are_just(address, n),
        }
    }

    /// Whether the base and the top lie from the start to the end of a region, both counted, whatever the tag.
    ///
    /// `region` may be any number: it begins at `FIRST_REGION + region * REGION_BYTES`.
    pub fn inside(self, region: u32) -> bool
        ensures { IsTrue result ↔ IsInside self.bits region }
    {
        let start = FIRST_REGION + u64::from(region) * REGION_BYTES;
        i128::from(start) <= self.base() && self.top() <= i128::from(start + REGION_BYTES)
    }

    /// The capability in another region: the same but for its address and its bounds, which lie the distance of
    /// the regions in bytes further on. An untagged one stays as it is.
    ///
    /// Both regions are below [`MOST_REGIONS`], and a tagged capability is inside `from`.
    pub fn moved(self, from: u32, to: u32) -> Cap
        requires from { from < MOST_REGIONS }
        requires to { to < MOST_REGIONS }
        requires inside { IsTrue self.tag → IsInside self.bits from }
        ensures is { result ≡ moved self from to }
        ensures tag { result.tag ≡ self.tag }
        ensures moves { IsTrue self.tag → IsMove self.bits (distance from to) result.bits }
        ensures inside { IsTrue result.tag → IsInside result.bits to }
    {
        if self.tag {
            Cap {
                bits: joined(self.moved_meta(from, to), self.moved_address(from, to)),
                tag: true,
            }
        } else {
            self
        }
    }

    // Whether it is tagged and plain.
    fn is_tagged_plain(self) -> bool
        ensures { result ≡ (self.tag && (kind_of self.bits == 0)) }
    {
        self.tag && self.kind() == 0
    }

    // Whether an entry of it is tagged: it is tagged, plain and may execute.
    fn may_be_entry(self) -> bool
        ensures { result ≡ (self.tag && ((kind_of self.bits == 0) && allows self.bits EXECUTE)) }
    {
        self.is_tagged_plain() && self.allows(EXECUTE)
    }

    // Whether new bounds for these bytes are tagged: it is tagged, plain and holds them.
    fn may_have_bounds(self, address: u64, size: u64) -> bool
        ensures { result ≡ (self.tag && ((kind_of self.bits == 0) && holds self.bits address size)) }
    {
        self.is_tagged_plain() && self.holds(address, size)
    }

    // The bits with other permissions.
    fn with_perms(self, perms: u16) -> u128
        ensures bits { result ≡ with_perms_bits self.bits perms }
        ensures base { base_of result ≡ base_of self.bits }
        ensures top { top_of result ≡ top_of self.bits }
    {
        u128::from(perms) << 112 | self.bits % (1 << 112)
    }

    // The bits with another kind.
    fn with_kind(self, kind: u32) -> u128
        requires { kind < 2 ^ 18 }
        ensures bits { result ≡ with_kind_bits self.bits kind }
        ensures base { base_of result ≡ base_of self.bits }
        ensures top { top_of result ≡ top_of self.bits }
    {
        self.bits >> 109 << 109 | u128::from(kind) << 91 | self.bits % (1 << 91)
    }

    // The bits with other bounds: IE, T and B, as they stand.
    fn with_bounds(self, bounds: u64) -> u128
        requires { bounds < 2 ^ 27 }
        ensures { result ≡ (meta_of self.bits / 2 ^ 27 * 2 ^ 27 + bounds) * 2 ^ 64 + address_of self.bits }
    {
        joined(self.meta() >> 27 << 27 | bounds, self.address())
    }

    // The address in another region.
    fn moved_address(self, from: u32, to: u32) -> u64
        requires from { from < MOST_REGIONS }
        requires to { to < MOST_REGIONS }
        requires inside { IsInside self.bits from }
        ensures { result + from * REGION_BYTES ≡ address_of self.bits + to * REGION_BYTES }
    {
        self.address() + u64::from(to) * REGION_BYTES - u64::from(from) * REGION_BYTES
    }

    // The meta half in another region: only B differs, by the distance in units of 2 to the exponent.
    //
    // With `MOST_REGIONS` regions more the distance is never negative. So many are 0 modulo `2^14` units.
    fn moved_meta(self, from: u32, to: u32) -> u64
        requires from { from < MOST_REGIONS }
        requires to { to < MOST_REGIONS }
        ensures { result ≡ meta_of self.bits - bottom_field_of self.bits
            + (bottom_field_of self.bits + (to + MOST_REGIONS - from) * (REGION_BYTES / 2 ^ exponent_of self.bits)) % 2 ^ 14 }
    {
        let distance = u64::from(to + MOST_REGIONS - from) * (REGION_BYTES >> self.exponent());
        let bottom = u64::from(self.bottom_field());
        self.meta() - bottom + (bottom + distance) % (1 << 14)
    }

    // Whether the base and the top are those of the other.
    fn has_bounds_of(self, other: Cap) -> bool
        ensures { IsTrue result ↔ ((base_of self.bits ≡ base_of other.bits) × (top_of self.bits ≡ top_of other.bits)) }
    {
        let (base, others) = (self.base(), other.base());
        base == others && self.top_from(base) == other.top_from(others)
    }
}

// The 128 bits of a meta half and an address.
fn joined(meta: u64, address: u64) -> u128
    ensures { result ≡ meta * 2 ^ 64 + address }
{
    u128::from(meta) << 64 | u128::from(address)
}
