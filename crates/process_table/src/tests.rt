// The process table, row by row.
use crate::{Process, Processes, State};
use cap_format::Cap;
use machine_types::Regs;
use std::test::Fail;

// a process with this id and parent
fn process(id: u64, parent: u64, state: State) -> Process {
    Process {
        id,
        parent,
        region: 3,
        regs: Regs::new(),
        pcc: Cap::null(),
        state,
    }
}

// the id, the parent and the state of the process of a slot
fn seen(table: &Processes, slot: u32) -> Option<(u64, u64, State)> {
    match table.get(slot) {
        Some(p) => Some((p.id, p.parent, p.state)),
        None => None,
    }
}

// the process of a slot ends, if it lives
fn end(table: &mut Processes, slot: u32, status: u32) {
    if table.is_live(slot) {
        table.finish(slot, status);
    }
}

#[test]
fn a_process_is_added_to_the_lowest_free_slot(rt: HostRuntime) -> Result<(), Fail> {
    let mut table = Processes::new(rt.alloc(), 3)?;
    assert_eq!(rt; table.slots(), 3);
    assert_eq!(rt; table.add(process(1, 0, State::Ready)), Some(0));
    assert_eq!(rt; table.add(process(2, 1, State::Ready)), Some(1));
    assert_eq!(rt; table.add(process(3, 1, State::Ready)), Some(2));
    assert_eq!(rt; table.add(process(4, 1, State::Ready)), None);
    assert_eq!(rt; seen(&table, 2), Some((3, 1, State::Ready)));
    end(&mut table, 0, 7);
    assert_eq!(rt; seen(&table, 0), None);
    assert_eq!(rt; seen(&table, 1), Some((2, 0, State::Ready)));
    assert_eq!(rt; table.add(process(5, 0, State::InWait)), Some(0));
    assert_eq!(rt; seen(&table, 0), Some((5, 0, State::InWait)));
    assert_eq!(rt; seen(&table, 3), None);
    Ok(())
}

#[test]
fn the_next_ready_slot_is_the_first_marked_one_after_the_last(rt: HostRuntime) -> Result<(), Fail> {
    let mut table = Processes::new(rt.alloc(), 4)?;
    assert_eq!(rt; table.next_ready(0), None);
    assert_eq!(rt; table.next_ready(3), None);
    table.mark(2, true);
    assert_eq!(rt; table.is_marked(2), true);
    assert_eq!(rt; table.is_marked(4), false);
    assert_eq!(rt; table.next_ready(0), Some(2));
    assert_eq!(rt; table.next_ready(2), Some(2));
    assert_eq!(rt; table.next_ready(3), Some(2));
    table.mark(0, true);
    table.mark(1, true);
    table.mark(3, true);
    assert_eq!(rt; table.next_ready(0), Some(1));
    assert_eq!(rt; table.next_ready(1), Some(2));
    assert_eq!(rt; table.next_ready(2), Some(3));
    assert_eq!(rt; table.next_ready(3), Some(0));
    table.mark(0, false);
    assert_eq!(rt; table.next_ready(3), Some(1));
    Ok(())
}

#[test]
fn an_end_leaves_orphans_and_no_zombie_child(rt: HostRuntime) -> Result<(), Fail> {
    let mut table = Processes::new(rt.alloc(), 6)?;
    table.place(0, process(2, 1, State::Ready));
    table.place(1, process(3, 2, State::InWrite { done: 9 }));
    table.place(2, process(4, 2, State::Zombie { status: 5 }));
    table.place(3, process(5, 3, State::Zombie { status: 6 }));
    table.place(4, process(6, 3, State::InRead));
    end(&mut table, 0, 268);
    assert_eq!(rt;
        seen(&table, 0),
        Some((2, 1, State::Zombie { status: 268 }))
    );
    assert_eq!(rt; seen(&table, 1), Some((3, 0, State::InWrite { done: 9 })));
    assert_eq!(rt; seen(&table, 2), None);
    assert_eq!(rt; seen(&table, 3), Some((5, 3, State::Zombie { status: 6 })));
    assert_eq!(rt; seen(&table, 4), Some((6, 3, State::InRead)));
    assert_eq!(rt; table.is_live(0), false);
    assert_eq!(rt; table.is_live(1), true);
    let region = match table.get(0) {
        Some(p) => p.region,
        None => 9,
    };
    assert_eq!(rt; region, 0);
    Ok(())
}

#[test]
fn the_zombie_of_lowest_id_is_waited_for(rt: HostRuntime) -> Result<(), Fail> {
    let mut table = Processes::new(rt.alloc(), 5)?;
    table.place(0, process(1, 0, State::InWait));
    table.place(1, process(9, 1, State::Zombie { status: 90 }));
    table.place(2, process(4, 1, State::Zombie { status: 40 }));
    table.place(3, process(3, 2, State::Zombie { status: 30 }));
    table.place(4, process(2, 1, State::Ready));
    assert_eq!(rt; table.reap(1), Some((4, 40)));
    assert_eq!(rt; seen(&table, 2), None);
    assert_eq!(rt; table.reap(1), Some((9, 90)));
    assert_eq!(rt; table.reap(1), None);
    assert_eq!(rt; table.has_child(1), true);
    assert_eq!(rt; table.has_child(2), true);
    assert_eq!(rt; table.has_child(9), false);
    assert_eq!(rt; seen(&table, 3), Some((3, 2, State::Zombie { status: 30 })));
    Ok(())
}

#[test]
fn a_process_is_changed_in_its_slot(rt: HostRuntime) -> Result<(), Fail> {
    let mut table = Processes::new(rt.alloc(), 2)?;
    table.place(1, process(1, 0, State::Ready));
    if let Some(p) = table.get_mut(1) {
        p.state = State::InWait;
    }
    assert_eq!(rt; seen(&table, 1), Some((1, 0, State::InWait)));
    assert_eq!(rt; table.get_mut(0).is_none(), true);
    Ok(())
}
