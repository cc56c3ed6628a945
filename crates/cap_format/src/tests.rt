// Patterns with bounds that were worked out by hand.
use crate::{
    ALL_PERMISSIONS, Cap, LOAD, LOAD_CAPABILITY, STORE, STORE_CAPABILITY, align_mask,
    rounded_length,
};
use std::test::Fail;

struct Bounds {
    bits: u128,
    exponent: u32,
    base: i128,
    top: i128,
}

const BOUNDS: [Bounds; 7] = [
    // An address past the top, within the window.
    Bounds {
        bits: 0x003c0000004401000000000100002000,
        exponent: 0,
        base: 0x100000100,
        top: 0x100000110,
    },
    // The whole of region 0, and of region 1.
    Bounds {
        bits: 0x003c0000040040000000000100000000,
        exponent: 8,
        base: 0x100000000,
        top: 0x100100000,
    },
    Bounds {
        bits: 0x003c0000040050000000000100100000,
        exponent: 8,
        base: 0x100100000,
        top: 0x100200000,
    },
    // No bytes, at the end of region 0.
    Bounds {
        bits: 0x003c0000000000000000000100100000,
        exponent: 0,
        base: 0x100100000,
        top: 0x100100000,
    },
    // A B in the last eighth, and an address in the first: the base lies in the 2^14 bytes below.
    Bounds {
        bits: 0x00000000000038000000000000004000,
        exponent: 0,
        base: 0x3800,
        top: 0x4000,
    },
    // The same at the address 0: the base is negative.
    Bounds {
        bits: 0x00000000000038000000000000000000,
        exponent: 0,
        base: -0x800,
        top: 0,
    },
    // A B in the first eighth, and an address in the last: the base lies in the 2^14 bytes above.
    Bounds {
        bits: 0x00000000000040000000000000003fff,
        exponent: 0,
        base: 0x4000,
        top: 0x4001,
    },
];

#[test]
fn bounds_are_those_of_the_layout(rt: HostRuntime) {
    for row in &BOUNDS {
        let cap = Cap {
            bits: row.bits,
            tag: true,
        };
        assert_eq!(rt;
            cap.exponent(),
            row.exponent,
            "exponent of {:032x}",
            row.bits
        );
        assert_eq!(rt; cap.base(), row.base, "base of {:032x}", row.bits);
        assert_eq!(rt; cap.top(), row.top, "top of {:032x}", row.bits);
    }
}

#[test]
fn an_address_outside_the_window_clears_the_tag(rt: HostRuntime) {
    let cap = Cap {
        bits: 0x003c0000004401000000000100000100,
        tag: true,
    };
    for (address, tag) in [
        (0x100000100, true),
        (0x100000110, true),
        (0x100002000, true),
        (0x1000037ff, true),
        (0x100003800, false),
        (0x0fffff800, true),
        (0x0fffff7ff, false),
    ] {
        let moved = cap.with_address(address);
        assert_eq!(rt; moved.tag, tag, "at {address:x}");
        assert_eq!(rt; moved.address(), address);
    }
}

#[test]
fn roots_have_the_bits_of_their_region(rt: HostRuntime) {
    let data = LOAD | STORE | LOAD_CAPABILITY | STORE_CAPABILITY;
    for (region, bits) in [
        (0, 0x003c0000040040000000000100000000),
        (1, 0x003c0000040050000000000100100000),
    ] {
        assert_eq!(rt; Cap::root(region, data), Cap { bits, tag: true });
    }
    assert!(rt; Cap::root(0, ALL_PERMISSIONS).allows(data));
    assert!(rt; !Cap::root(0, data).allows(ALL_PERMISSIONS));
    assert!(rt; Cap::root(0, data).holds(0x100000000, 0x100000));
    assert!(rt; !Cap::root(0, data).holds(0x100000001, 0x100000));
}

#[test]
fn null_and_integers_are_plain_and_untagged(rt: HostRuntime) -> Result<(), Fail> {
    assert_eq!(rt; Cap::null(), Cap::from_int(0));
    let integer = Cap::from_int(u64::MAX);
    assert_eq!(rt; integer.address(), u64::MAX);
    assert_eq!(rt; integer.perms(), 0);
    assert_eq!(rt; integer.kind(), 0);
    assert!(rt; !integer.is_entry() && !integer.tag);
    Ok(())
}

#[test]
fn bounds_of_4096_bytes_or_more_are_rounded_outwards(rt: HostRuntime) {
    let data = LOAD | STORE | LOAD_CAPABILITY | STORE_CAPABILITY;
    let start = Cap::root(0, data).with_address(0x100000001);
    for (size, meta, base, top, exact) in [
        (4095, 0x003c000000000001, 0x100000001, 0x100001000, true),
        (4096, 0x003c000004020000, 0x100000000, 0x100001008, false),
        (8192, 0x003c000004020001, 0x100000000, 0x100002010, false),
    ] {
        let bounded = start.set_bounds(size);
        assert_eq!(rt; bounded.cap.bits >> 64, meta, "meta of {size}");
        assert_eq!(rt; bounded.cap.address(), 0x100000001);
        assert_eq!(rt; bounded.cap.base(), base, "base of {size}");
        assert_eq!(rt; bounded.cap.top(), top, "top of {size}");
        assert_eq!(rt; bounded.exact, exact, "whether {size} are exact");
        assert!(rt; bounded.cap.tag);
    }
    assert!(rt; start.set_bounds(0xfffff).cap.tag);
    assert!(rt; !start.set_bounds(0x100000).cap.tag);
}

struct Edge {
    address: u64,
    size: u64,
    base: i128,
    top: i128,
    exact: bool,
}

// Bounds that carry into the high bits or end at 2^64.
const EDGES: [Edge; 10] = [
    Edge {
        address: 0x1ffffffff,
        size: 0xfff,
        base: 0x1ffffffff,
        top: 0x200000ffe,
        exact: true,
    },
    Edge {
        address: 0xfffffffffffff001,
        size: 0xfff,
        base: 0xfffffffffffff001,
        top: 0x10000000000000000,
        exact: true,
    },
    Edge {
        address: 0x1ffffffff,
        size: 0x1000,
        base: 0x1fffffff8,
        top: 0x200001000,
        exact: false,
    },
    Edge {
        address: 0xffffffffffffefff,
        size: 0x1001,
        base: 0xffffffffffffeff8,
        top: 0x10000000000000000,
        exact: false,
    },
    Edge {
        address: 0x1ffffffff,
        size: 0xfffff,
        base: 0x1fffff800,
        top: 0x200100000,
        exact: false,
    },
    Edge {
        address: 0xfffffffffff00000,
        size: 0x100000,
        base: 0xfffffffffff00000,
        top: 0x10000000000000000,
        exact: true,
    },
    Edge {
        address: 0x7fffffffffffffff,
        size: 0x8000000000000000,
        base: 0x7fc0000000000000,
        top: 0x10000000000000000,
        exact: false,
    },
    Edge {
        address: 0x8000000000000000,
        size: 0x8000000000000000,
        base: 0x8000000000000000,
        top: 0x10000000000000000,
        exact: true,
    },
    Edge {
        address: 1,
        size: 0xffffffffffffffff,
        base: 0,
        top: 0x10000000000000000,
        exact: false,
    },
    Edge {
        address: 0x1ffffffff,
        size: 0xffffffffffffffff,
        base: 0,
        top: 0x10080000000000000,
        exact: false,
    },
];

#[test]
fn bounds_carry_into_high_bits(rt: HostRuntime) {
    for edge in &EDGES {
        let bounded = Cap::from_int(edge.address).set_bounds(edge.size);
        assert_eq!(rt;
            bounded.cap.base(),
            edge.base,
            "base of {:x} bytes from {:x}",
            edge.size,
            edge.address
        );
        assert_eq!(rt;
            bounded.cap.top(),
            edge.top,
            "top of {:x} bytes from {:x}",
            edge.size,
            edge.address
        );
        assert_eq!(rt; bounded.exact, edge.exact);
        assert!(rt; !bounded.cap.tag);
    }
}

#[test]
fn lengths_are_rounded_with_their_alignment(rt: HostRuntime) {
    for (size, length, mask) in [
        (0, 0, 0xffffffffffffffff),
        (4095, 4095, 0xffffffffffffffff),
        (4096, 4096, 0xfffffffffffffff8),
        (4097, 4104, 0xfffffffffffffff8),
        (0x100001, 0x100800, 0xfffffffffffff800),
        (0x8000000000000000, 0x8000000000000000, 0xffc0000000000000),
        (0xffffffffffffffff, 0, 0xff80000000000000),
    ] {
        assert_eq!(rt; rounded_length(size), length, "length of {size:x}");
        assert_eq!(rt; align_mask(size), mask, "mask of {size:x}");
    }
}

#[test]
fn only_plain_code_becomes_an_entry(rt: HostRuntime) {
    let code = Cap::root(0, ALL_PERMISSIONS);
    let entry = code.seal_entry();
    assert_eq!(rt; entry.bits, 0x003e00000c0040000000000100000000);
    assert!(rt; entry.tag && entry.is_entry());
    assert_eq!(rt; entry.unseal_entry(), code);
    assert!(rt; !entry.seal_entry().tag);
    assert!(rt; !Cap::root(0, LOAD).seal_entry().tag);
}

#[test]
fn only_plain_capabilities_keep_the_tag_with_fewer_permissions(rt: HostRuntime) {
    let code = Cap::root(0, ALL_PERMISSIONS);
    assert_eq!(rt; code.and_perms(LOAD | 1), Cap::root(0, LOAD));
    let entry = code.seal_entry().and_perms(LOAD);
    assert_eq!(rt; entry.perms(), LOAD);
    assert!(rt; entry.is_entry() && !entry.tag);
}

#[test]
fn both_ends_of_a_region_are_inside(rt: HostRuntime) {
    assert!(rt; Cap::root(1, LOAD).inside(1));
    assert!(rt; !Cap::root(1, LOAD).inside(0));
    assert!(rt; !Cap::root(1, LOAD).inside(2));
    for (address, size, first, second) in [
        (0x1000fffff, 0, true, false),
        (0x1000fffff, 1, true, false),
        (0x1000fffff, 2, false, false),
        (0x100100000, 0, true, true),
        (0x100100000, 1, false, true),
    ] {
        let cap = Cap::from_int(address).set_bounds(size).cap;
        assert_eq!(rt; cap.inside(0), first, "{size} from {address:x}, in 0");
        assert_eq!(rt; cap.inside(1), second, "{size} from {address:x}, in 1");
    }
}

#[test]
fn moves_change_the_address_and_the_bounds_alone(rt: HostRuntime) {
    for (bits, moved) in [
        // An address past the top.
        (
            0x003c0000004401000000000100002000,
            0x003c0000004401000000000100102000,
        ),
        // No bytes, at the end of the region.
        (
            0x003c0000000000000000000100100000,
            0x003c0000000000000000000100200000,
        ),
        // The whole of the region.
        (
            0x003c0000040040000000000100000000,
            0x003c0000040050000000000100100000,
        ),
    ] {
        let here = Cap { bits, tag: true };
        let there = Cap {
            bits: moved,
            tag: true,
        };
        assert!(rt; here.inside(0) && there.inside(1));
        assert_eq!(rt; here.moved(0, 1), there);
        assert_eq!(rt; there.moved(1, 0), here);
    }
}

#[test]
fn an_untagged_value_stays_as_it_is(rt: HostRuntime) {
    let integer = Cap::from_int(0x100002000);
    assert_eq!(rt; integer.moved(0, 1), integer);
}
