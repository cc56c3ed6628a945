// Descriptors, row by row.
use crate::{Descriptors, Target};
use std::test::Fail;

#[test]
fn a_console_is_shared_with_a_child_until_it_ends(rt: HostRuntime) -> Result<(), Fail> {
    let mut files = Descriptors::new(rt.alloc(), 3)?;
    assert_eq!(rt; files.look(0, 0), None);
    assert_eq!(rt; files.stored(0), 0);
    assert_eq!(rt; files.room(0), 4096);
    assert_eq!(rt; files.readers(0), 0);
    assert_eq!(rt; files.writers(0), 0);
    assert_eq!(rt; files.stored(15), 0);
    assert_eq!(rt; files.room(15), 4096);
    assert_eq!(rt; files.readers(15), 0);
    assert_eq!(rt; files.writers(15), 0);
    files.console(0);
    assert_eq!(rt; files.look(0, 0), Some(Target::ConsoleIn));
    assert_eq!(rt; files.look(0, 1), Some(Target::ConsoleOut));
    assert_eq!(rt; files.look(0, 2), None);
    assert_eq!(rt; files.look(0, 15), None);
    assert_eq!(rt; files.look(0, 16), None);
    assert_eq!(rt; files.look(0, 4_294_967_296), None);
    assert_eq!(rt; files.look(3, 0), None);
    files.fork(0, 2);
    assert_eq!(rt; files.look(2, 0), Some(Target::ConsoleIn));
    assert_eq!(rt; files.look(2, 1), Some(Target::ConsoleOut));
    assert_eq!(rt; files.look(1, 0), None);
    files.end(0);
    assert_eq!(rt; files.look(0, 0), None);
    assert_eq!(rt; files.look(0, 1), None);
    assert_eq!(rt; files.look(2, 1), Some(Target::ConsoleOut));
    Ok(())
}

#[test]
fn a_console_replaces_entries_and_a_slot_keeps_its_own(rt: HostRuntime) -> Result<(), Fail> {
    let mut files = Descriptors::new(rt.alloc(), 64)?;
    files.console(63);
    files.console(63);
    assert_eq!(rt; files.look(63, 0), Some(Target::ConsoleIn));
    assert_eq!(rt; files.look(63, 1), Some(Target::ConsoleOut));
    files.fork(63, 63);
    assert_eq!(rt; files.look(63, 0), Some(Target::ConsoleIn));
    assert_eq!(rt; files.look(63, 1), Some(Target::ConsoleOut));
    files.fork(0, 63);
    assert_eq!(rt; files.look(63, 0), None);
    assert_eq!(rt; files.look(63, 1), None);
    Ok(())
}
