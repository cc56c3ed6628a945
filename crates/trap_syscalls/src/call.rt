// A call, as it is asked for.
ghost use Rattle.std.specs.Prelude.{◌≡◌, true, Some};
ghost use Rattle.machine.specs.declared.process.Process.{Process};
ghost use Rattle.machine.specs.Processes.{process_at, lives};
ghost use Rattle.trap_syscalls.specs.Asked.{call_of};

use cap_format::Cap;
use machine::{Process, State};
use machine_types::Regs;
use process_table::Processes;

// who calls, and with what
#[derive(Clone, Copy)]
pub(crate) struct Call {
    pub(crate) slot: u32,
    pub(crate) id: u64,
    pub(crate) parent: u64,
    pub(crate) region: u32,
    pub(crate) state: State,
    // the call's number, in x17
    pub(crate) number: u64,
    // x10, a descriptor or a status
    pub(crate) first: u64,
    // c11, where the bytes of a transfer lie
    pub(crate) pointer: Cap,
    // x12, the count of a transfer, in bytes
    pub(crate) count: u64,
}

// what the process of a slot, which is there, asks for
pub(crate) fn call_at(processes: &Processes, slot: u32) -> Call
    requires { lives (process_at processes.now.processes slot) ≡ true }
    ensures { (p : Process) → process_at processes.now.processes slot ≡ Some p → result ≡ call_of slot p }
{
    match processes.get(slot) {
        Some(p) => asked(slot, p),
        None => no_call(),
    }
}

// what a process asks for
fn asked(slot: u32, p: &Process) -> Call
    ensures { result ≡ call_of slot p.now }
{
    Call {
        slot,
        id: p.id,
        parent: p.parent,
        region: p.region,
        state: p.state,
        number: p.regs.get(17).address(),
        first: p.regs.get(10).address(),
        pointer: p.regs.get(11),
        count: p.regs.get(12).address(),
    }
}

// what nobody asks for
fn no_call() -> Call {
    Call {
        slot: 0,
        id: 0,
        parent: 0,
        region: 0,
        state: State::Ready,
        number: 0,
        first: 0,
        pointer: Cap::null(),
        count: 0,
    }
}
