// Loads and stores, and the tags of what they move.
use crate::caps::{CODE, DATA, LOADED, NUMBERS, STORED, at, bare, int, untagged};
use crate::guests::{Guest, changes};
use cap_format::Cap;
use cheri_step::StepEnd;
use riscv_decode::{Instr, LoadOp, StoreOp};
use std::alloc::Global;
use std::test::Fail;

fn load(op: LoadOp, rs1: u8, imm: i32) -> Instr {
    Instr::Load {
        op,
        rd: 12,
        rs1,
        imm,
    }
}

fn store(op: StoreOp, rs2: u8, imm: i32) -> Instr {
    Instr::Store {
        op,
        rs1: 10,
        rs2,
        imm,
    }
}

// Register 12 after a load by register 10, which changes nothing else.
fn loaded(alloc: Global, op: LoadOp, authority: Cap, imm: i32) -> Result<Cap, Fail> {
    let mut guest = Guest::new(alloc, &[load(op, 10, imm)], CODE, &[(10, authority)])?;
    let before = guest.memory(alloc)?;
    let stepped = guest.step();
    if stepped.end != StepEnd::Next || guest.pcc() != at(CODE, 4) {
        return Err(Fail::from("not loaded"));
    }
    if changes(&before, &guest.memory(alloc)?) != 0 {
        return Err(Fail::from("a load changed memory"));
    }
    Ok(guest.reg(12))
}

// The first granule of page 1 after a store by register 10, which changes no other.
fn stored(
    alloc: Global,
    op: StoreOp,
    authority: Cap,
    imm: i32,
    value: Cap,
) -> Result<Option<Cap>, Fail> {
    let values = [(10, authority), (11, value)];
    let mut guest = Guest::new(alloc, &[store(op, 11, imm)], CODE, &values)?;
    let before = guest.memory(alloc)?;
    let stepped = guest.step();
    if stepped.end != StepEnd::Next || guest.pcc() != at(CODE, 4) {
        return Err(Fail::from("not stored"));
    }
    if changes(&before, &guest.memory(alloc)?) != 1 {
        return Err(Fail::from("another granule was changed, or none"));
    }
    Ok(guest.granule(1, 0))
}

// Register 12 at the end of a guest that is done, where register 10 is the data, 11 is stored and 13 loads.
fn moved(
    alloc: Global,
    code: &[Instr],
    value: Cap,
    loads: Cap,
) -> Result<(Cap, Option<Cap>), Fail> {
    let values = [(10, DATA), (11, value), (13, loads), (14, int(0x55))];
    let mut guest = Guest::new(alloc, code, CODE, &values)?;
    for _ in 0..code.len() {
        if guest.step().end != StepEnd::Next {
            return Err(Fail::from("not done"));
        }
    }
    Ok((guest.reg(12), guest.granule(1, 0)))
}

#[test]
fn loads_of_each_size_extend_by_their_sign_or_by_zeros(rt: HostRuntime) -> Result<(), Fail> {
    let rows: [(LoadOp, u64, u64); 7] = [
        (LoadOp::Lb, 0xffff_ffff_ffff_fff0, 0x01),
        (LoadOp::Lh, 0xffff_ffff_ffff_e1f0, 0x1201),
        (LoadOp::Lw, 0xffff_ffff_c3d2_e1f0, 0x3423_1201),
        (LoadOp::Ld, 0x8796_a5b4_c3d2_e1f0, 0x7867_5645_3423_1201),
        (LoadOp::Lbu, 0xf0, 0x01),
        (LoadOp::Lhu, 0xe1f0, 0x1201),
        (LoadOp::Lwu, 0xc3d2_e1f0, 0x3423_1201),
    ];
    for (op, first, second) in rows {
        let last = at(LOADED, 0x1010);
        assert_eq!(rt; loaded(rt.alloc(), op, DATA, 0)?, int(first), "{op:?}");
        assert_eq!(rt; loaded(rt.alloc(), op, DATA, 8)?, int(second), "{op:?}");
        assert_eq!(rt; loaded(rt.alloc(), op, last, -16)?, int(first), "{op:?}");
    }
    Ok(())
}

#[test]
fn a_capability_load_gives_all_bits_of_a_granule(rt: HostRuntime) -> Result<(), Fail> {
    let granule = untagged(0x7867_5645_3423_1201_8796_a5b4_c3d2_e1f0);
    assert_eq!(rt; loaded(rt.alloc(), LoadOp::Clc, DATA, 0)?, granule);
    assert_eq!(rt; loaded(rt.alloc(), LoadOp::Clc, DATA, 16)?, Cap::null());
    Ok(())
}

#[test]
fn stores_of_each_size_replace_their_bytes(rt: HostRuntime) -> Result<(), Fail> {
    let value = int(0x1122_3344_5566_7788);
    let rows: [(StoreOp, i32, Cap, u128); 6] = [
        (
            StoreOp::Sb,
            1,
            value,
            0x7867_5645_3423_1201_8796_a5b4_c3d2_88f0,
        ),
        (
            StoreOp::Sh,
            2,
            value,
            0x7867_5645_3423_1201_8796_a5b4_7788_e1f0,
        ),
        (
            StoreOp::Sw,
            4,
            value,
            0x7867_5645_3423_1201_5566_7788_c3d2_e1f0,
        ),
        (
            StoreOp::Sd,
            8,
            value,
            0x1122_3344_5566_7788_8796_a5b4_c3d2_e1f0,
        ),
        (
            StoreOp::Sd,
            0,
            DATA,
            0x7867_5645_3423_1201_0000_0001_0000_1000,
        ),
        (StoreOp::Csc, 0, value, 0x1122_3344_5566_7788),
    ];
    for (op, imm, value, want) in rows {
        let granule = stored(rt.alloc(), op, STORED, imm, value)?;
        assert_eq!(rt; granule, Some(untagged(want)), "{op:?} at {imm}");
    }
    Ok(())
}

#[test]
fn a_tagged_value_is_stored_with_its_tag(rt: HostRuntime) -> Result<(), Fail> {
    assert_eq!(rt;
        stored(rt.alloc(), StoreOp::Csc, DATA, 0, DATA)?,
        Some(DATA)
    );
    assert_eq!(rt;
        stored(rt.alloc(), StoreOp::Csc, DATA, 0, CODE)?,
        Some(CODE)
    );
    Ok(())
}

#[test]
fn an_untagged_value_is_stored_without_store_capability(rt: HostRuntime) -> Result<(), Fail> {
    let value = bare(CODE);
    assert_eq!(rt;
        stored(rt.alloc(), StoreOp::Csc, NUMBERS, 0, value)?,
        Some(value)
    );
    Ok(())
}

#[test]
fn tags_go_round_through_memory(rt: HostRuntime) -> Result<(), Fail> {
    let code = [store(StoreOp::Csc, 11, 0), load(LoadOp::Clc, 13, 0)];
    let all = moved(rt.alloc(), &code, CODE, DATA)?;
    assert_eq!(rt; all, (CODE, Some(CODE)));
    Ok(())
}

#[test]
fn a_load_without_load_capability_gives_no_tag(rt: HostRuntime) -> Result<(), Fail> {
    let code = [store(StoreOp::Csc, 11, 0), load(LoadOp::Clc, 13, 0)];
    assert_eq!(rt;
        moved(rt.alloc(), &code, CODE, NUMBERS)?,
        (bare(CODE), Some(CODE))
    );
    assert_eq!(rt;
        moved(rt.alloc(), &code, CODE, LOADED)?,
        (bare(CODE), Some(CODE))
    );
    Ok(())
}

#[test]
fn an_integer_store_over_a_part_of_a_capability_clears_its_tag(
    rt: HostRuntime,
) -> Result<(), Fail> {
    let rows: [(StoreOp, i32, u128); 3] = [
        (StoreOp::Sb, 0, 0x003c_0000_0040_1000_0000_0001_0000_1055),
        (StoreOp::Sw, 8, 0x003c_0000_0000_0055_0000_0001_0000_1000),
        (StoreOp::Sd, 8, 0x0000_0000_0000_0055_0000_0001_0000_1000),
    ];
    for (op, imm, want) in rows {
        let code = [
            store(StoreOp::Csc, 11, 0),
            store(op, 14, imm),
            load(LoadOp::Clc, 13, 0),
        ];
        let want = untagged(want);
        assert_eq!(rt;
            moved(rt.alloc(), &code, DATA, DATA)?,
            (want, Some(want)),
            "{op:?}"
        );
    }
    Ok(())
}

#[test]
fn an_integer_load_from_a_capability_leaves_its_tag(rt: HostRuntime) -> Result<(), Fail> {
    let code = [store(StoreOp::Csc, 11, 0), load(LoadOp::Ld, 13, 8)];
    let high = int(0x003c_0000_0040_1000);
    assert_eq!(rt; moved(rt.alloc(), &code, DATA, LOADED)?, (high, Some(DATA)));
    Ok(())
}

#[test]
fn a_store_beside_a_capability_leaves_its_tag(rt: HostRuntime) -> Result<(), Fail> {
    let code = [
        store(StoreOp::Csc, 11, 0),
        store(StoreOp::Sd, 14, 16),
        load(LoadOp::Clc, 13, 0),
    ];
    assert_eq!(rt; moved(rt.alloc(), &code, DATA, DATA)?, (DATA, Some(DATA)));
    Ok(())
}

#[test]
fn a_load_into_register_0_is_made_and_dropped(rt: HostRuntime) -> Result<(), Fail> {
    let instr = Instr::Load {
        op: LoadOp::Ld,
        rd: 0,
        rs1: 10,
        imm: 0,
    };
    let mut guest = Guest::new(rt.alloc(), &[instr], CODE, &[(10, DATA)])?;
    assert!(rt; guest.step().end == StepEnd::Next);
    assert_eq!(rt; guest.reg(0), Cap::null());
    Ok(())
}
