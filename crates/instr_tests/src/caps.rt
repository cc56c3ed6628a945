// Capabilities of a guest in region 0, whose bits were worked out by hand.
use cap_format::Cap;

/// The address at which region 0 begins.
pub const START: u64 = 0x1_0000_0000;

/// PCC at the start of the region: the whole region, to execute and to load with tags.
pub const CODE: Cap = Cap {
    bits: 0x0016_0000_0400_4000_0000_0001_0000_0000,
    tag: true,
};

/// The whole region with all permissions, at its start.
pub const WHOLE: Cap = Cap {
    bits: 0x003e_0000_0400_4000_0000_0001_0000_0000,
    tag: true,
};

/// The first 256 bytes of page 1, to load and to store, with tags, at their start.
pub const DATA: Cap = Cap {
    bits: 0x003c_0000_0040_1000_0000_0001_0000_1000,
    tag: true,
};

/// The same to load and to store, but without tags.
pub const NUMBERS: Cap = Cap {
    bits: 0x000c_0000_0040_1000_0000_0001_0000_1000,
    tag: true,
};

/// The same only to store numbers.
pub const STORED: Cap = Cap {
    bits: 0x0008_0000_0040_1000_0000_0001_0000_1000,
    tag: true,
};

/// The same only to load numbers.
pub const LOADED: Cap = Cap {
    bits: 0x0004_0000_0040_1000_0000_0001_0000_1000,
    tag: true,
};

/// An integer.
pub fn int(value: u64) -> Cap {
    untagged(u128::from(value))
}

/// Bits without a tag.
pub fn untagged(bits: u128) -> Cap {
    Cap { bits, tag: false }
}

/// Bits with a tag.
pub fn tagged(bits: u128) -> Cap {
    Cap { bits, tag: true }
}

/// The capability without its tag.
pub fn bare(cap: Cap) -> Cap {
    untagged(cap.bits)
}

/// A plain capability as a sealed entry, whether it may be one or not: the kind 1 is bit 91.
pub fn sealed(cap: Cap) -> Cap {
    Cap {
        bits: cap.bits | 1 << 91,
        tag: cap.tag,
    }
}

/// The capability at a place of the region, whether its bounds stay or not.
pub fn at(cap: Cap, place: u64) -> Cap {
    Cap {
        bits: cap.bits >> 64 << 64 | u128::from(START.wrapping_add(place)),
        tag: cap.tag,
    }
}
