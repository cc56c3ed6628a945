//! Makes so many steps of a small loop over the space of whole copies, to be timed: `step_rate LOOP STEPS`, where LOOP is `count`
//! (addi, bne) or `memory` (addi, sd, ld, bne).
#![tactic(auto)]

ghost use Rattle.std.specs.Prelude.{◌≡◌, ◌≤◌, IfOk, IfSome, length};
ghost use Rattle.contents.specs.Conditions.{HasNoStore};
ghost use Rattle.stores.specs.Known.{StandsFor};
ghost use Rattle.cheri_step.specs.Effect.{CanStep};

use cap_format::{Cap, EXECUTE, LOAD, PAGE_BYTES, STORE};
use cheri_step::{StepEnd, step_instr};
use full_space::FullSpace;
use machine_types::{NoFrame, RIGHT_R, RIGHT_W, RIGHT_X, Regs};
use std::env;
use std::process::ExitCode;
use stores::{Board, Stores};

// addi x1, x1, 1; bne x1, x0, -4
const COUNT: [u8; 8] = [0x93, 0x80, 0x10, 0x00, 0xe3, 0x9e, 0x00, 0xfe];

// addi x1, x1, 1; sd x1, 512(c2); ld x3, 512(c2); bne x1, x0, -12
const MEMORY: [u8; 16] = [
    0x93, 0x80, 0x10, 0x00, 0x23, 0x30, 0x11, 0x20, 0x83, 0x31, 0x01, 0x20, 0xe3, 0x9a, 0x00, 0xfe,
];

// Gives region 0 a page with this code, which may be written too. PCC stands at its front, and register 2 is the region.
fn begin<S: Stores>(space: &mut S, code: &[u8]) -> Result<(Regs, Cap), NoFrame>
    requires within { length code.now ≤ PAGE_BYTES }
    requires none { ∥ StandsFor S.stands_for space.old (HasNoStore 0) ∥₁ }
    ensures ready { IfOk result (λ started. ∥ StandsFor S.stands_for space.new (CanStep 0 started.0 started.1) ∥₁) }
{
    space.begin(0);
    space.add_page(0, 0, RIGHT_R | RIGHT_W | RIGHT_X, code)?;
    let mut regs = Regs::new();
    regs.put(2, Cap::root(0, LOAD | STORE));
    Ok((regs, Cap::root(0, EXECUTE | LOAD)))
}

// Makes at most so many steps, and says how many ended with the next instruction.
fn run<S: Stores>(space: &mut S, regs: &mut Regs, pcc: &mut Cap, steps: u64) -> u64
    requires ready { ∥ StandsFor S.stands_for space.old (CanStep 0 regs.old pcc.old) ∥₁ }
{
    for made in 0..steps {
        if step_instr(regs, pcc, 0, space).end != StepEnd::Next {
            return made;
        }
    }
    steps
}

// The loop and the number of steps that the words name.
fn asked(rt: &HostRuntime) -> Option<(&'static [u8], u64)>
    ensures { IfSome result (λ asked. length asked.0.now ≤ PAGE_BYTES) }
{
    let mut words = env::args(rt).ok()?.skip(1);
    let code: &'static [u8] = match words.next()?.as_str() {
        "count" => &COUNT,
        "memory" => &MEMORY,
        _ => return None,
    };
    let steps = words.next()?.parse().ok()?;
    Some((code, steps))
}

// Makes so many steps on a board of its own. None: there was no memory for it.
fn measure(rt: &HostRuntime, code: &[u8], steps: u64) -> Option<u64>
    requires { length code.now ≤ PAGE_BYTES }
{
    let board = Board::new(rt.alloc(), 16).ok()?;
    let mut space = FullSpace::new(board);
    let (mut regs, mut pcc) = begin(&mut space, code).ok()?;
    Some(run(&mut space, &mut regs, &mut pcc, steps))
}

fn main(rt: HostRuntime) -> ExitCode {
    let Some((code, steps)) = asked(&rt) else {
        return ExitCode::FAILURE;
    };
    let Some(made) = measure(&rt, code, steps) else {
        return ExitCode::FAILURE;
    };
    match println!(rt; "made {made}") {
        Ok(()) => ExitCode::SUCCESS,
        Err(_) => ExitCode::FAILURE,
    }
}
