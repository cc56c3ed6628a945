// Lines of words, by one write each.
use crate::write_instr;
use outside_io::{Failed, MemorySink};
use std::test::Fail;

#[test]
fn a_line_is_one_write(rt: HostRuntime) -> Result<(), Fail> {
    let alloc = rt.alloc();
    let mut out = MemorySink::new(alloc, 4096, Vec::new(alloc))?;
    assert_eq!(rt; write_instr(0x4, 0x0201_15db, &mut out), Ok(()));
    assert_eq!(rt;
        out.bytes(),
        b"00004: 020115db cincoffsetimm c11, c2, 32\n".as_slice()
    );
    Ok(())
}

#[test]
fn a_write_that_fails_ends_it(rt: HostRuntime) -> Result<(), Fail> {
    let alloc = rt.alloc();
    let mut failing = Vec::new(alloc);
    failing.push(1)?;
    let mut out = MemorySink::new(alloc, 4096, failing)?;
    assert_eq!(rt; write_instr(0xffffc, 0x73, &mut out), Ok(()));
    assert_eq!(rt; write_instr(0, 0x73, &mut out), Err(Failed));
    assert_eq!(rt; out.bytes(), b"ffffc: 00000073 ecall\n".as_slice());
    Ok(())
}
