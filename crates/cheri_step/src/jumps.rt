// Jumps, and PCC after an instruction.
ghost use Rattle.std.specs.Prelude.{◌≡◌, ℕ, ◌+◌, ◌<◌, ◌^◌, IsTrue, List};
ghost use Rattle.cap_format.specs.declared.cap.Cap.{Cap};
ghost use Rattle.cap_format.specs.Pattern.{address_of};
ghost use Rattle.cap_format.specs.Region.{IsInside};
ghost use Rattle.cap_format.specs.Rights.{holds};
ghost use Rattle.cap_format.specs.Made.{with_address};
ghost use Rattle.cap_format.specs.Code.{IsCode};
ghost use Rattle.cheri_step.specs.Held.{MayStandAt, MayGoOn};
ghost use Rattle.cheri_step.specs.Results.{next_pcc};
ghost use Rattle.cheri_step.specs.Tests.{tests_of_target, tests_of_jump, passed};
ghost use Rattle.cheri_step.specs.Plans.{ends, goes_on, branches, displaced, link, jumps, jumps_by, jumps_to, unsealed, even_below};

use crate::step::StepEnd;
use cap_format::{Cap, EXECUTE};
use int_step::operand;
use machine_types::{Cause, Regs};

/// PCC at the next instruction, 4 bytes on. Its four bytes here lie in its bounds, and the address does not wrap.
///
/// It is code there too, inside each region that it is inside of here.
pub fn next_pcc(pcc: Cap) -> Cap
    requires code { IsCode pcc }
    requires held { IsTrue (holds pcc.bits (address_of pcc.bits) 4) }
    requires fits { address_of pcc.bits + 4 < 2 ^ 64 }
    ensures is { result ≡ next_pcc pcc }
    ensures code { IsCode result }
    ensures inside { (region : ℕ) → IsInside pcc.bits region → IsInside result.bits region }
    ensures address { address_of result.bits ≡ address_of pcc.bits + 4 }
    ensures pattern { result.bits < 2 ^ 128 }
{
    standing_at(pcc, pcc.address().wrapping_add(4))
}

// The capability with this address, where it may stand: nothing is to be tested.
fn standing_at(cap: Cap, address: u64) -> Cap
    requires { MayStandAt cap address }
    ensures { result ≡ with_address cap address }
{
    Cap {
        bits: cap.bits - cap.bits % (1 << 64) + u128::from(address),
        tag: true,
    }
}

/// A capability's address and an immediate, in bytes. The sum wraps.
pub fn displaced(cap: Cap, imm: i32) -> u64
    ensures { result ≡ displaced cap imm }
{
    cap.address().wrapping_add(operand(imm))
}

/// Goes on to the next instruction.
pub fn go_on(pcc: &mut Cap) -> StepEnd
    requires { MayGoOn pcc.old }
    ensures { (registers : List Cap) → goes_on registers pcc.old ≡ ends result registers pcc.new }
{
    *pcc = next_pcc(*pcc);
    StepEnd::Next
}

/// A branch: where it is taken, a jump in the bounds of PCC that leaves no way back.
pub fn branch(pcc: &mut Cap, is_taken: bool, imm: i32) -> StepEnd
    requires { MayGoOn pcc.old }
    ensures { (registers : List Cap) → branches registers pcc.old is_taken imm ≡ ends result registers pcc.new }
{
    if is_taken {
        jump_away(pcc, imm)
    } else {
        go_on(pcc)
    }
}

// A jump in the bounds of PCC that leaves no way back.
fn jump_away(pcc: &mut Cap, imm: i32) -> StepEnd
    requires { MayGoOn pcc.old }
    ensures { (registers : List Cap) → jumps_by registers pcc.old 0 imm ≡ ends result registers pcc.new }
{
    let target = displaced(*pcc, imm);
    match test_target(*pcc, target) {
        Ok(()) => {
            *pcc = standing_at(*pcc, target);
            StepEnd::Next
        }
        Err(cause) => StepEnd::Fault(cause),
    }
}

/// A jump in the bounds of PCC, as cjal makes it. The way back goes into a register.
pub fn jump_by(regs: &mut Regs, pcc: &mut Cap, rd: u8, imm: i32) -> StepEnd
    requires rd { rd < 32 }
    requires goes_on { MayGoOn pcc.old }
    ensures { jumps_by regs.old pcc.old rd imm ≡ ends result regs.new pcc.new }
{
    let target = displaced(*pcc, imm);
    let tests = test_target(*pcc, target);
    jump(regs, pcc, rd, *pcc, target, tests)
}

/// A jump by a capability of a register, as cjalr makes it. The way back goes into a register.
pub fn jump_to(regs: &mut Regs, pcc: &mut Cap, rd: u8, cap: Cap, imm: i32) -> StepEnd
    requires rd { rd < 32 }
    requires goes_on { MayGoOn pcc.old }
    ensures { jumps_to regs.old pcc.old rd cap imm ≡ ends result regs.new pcc.new }
{
    let target = even_below(displaced(cap, imm));
    let tests = test_jump(cap, imm, target);
    jump(regs, pcc, rd, unsealed(cap), target, tests)
}

// A jump whose tests came to this.
fn jump(
    regs: &mut Regs,
    pcc: &mut Cap,
    rd: u8,
    cap: Cap,
    target: u64,
    tests: Result<(), Cause>,
) -> StepEnd
    requires rd { rd < 32 }
    requires goes_on { MayGoOn pcc.old }
    ensures { jumps regs.old pcc.old rd cap target tests ≡ ends result regs.new pcc.new }
{
    match tests {
        Ok(()) => {
            regs.put(rd, link(*pcc));
            *pcc = cap.with_address(target);
            StepEnd::Next
        }
        Err(cause) => StepEnd::Fault(cause),
    }
}

// The way back from a jump.
fn link(pcc: Cap) -> Cap
    requires { MayGoOn pcc }
    ensures { result ≡ link pcc }
{
    next_pcc(pcc).seal_entry()
}

// The tests of a target.
fn test_target(cap: Cap, target: u64) -> Result<(), Cause>
    ensures { result ≡ passed (tests_of_target cap target) }
{
    if target % 4 != 0 {
        return Err(Cause::Misaligned);
    }
    if !cap.holds(target, 4) {
        return Err(Cause::CodeBounds);
    }
    Ok(())
}

// The tests of a jump by a capability.
fn test_jump(cap: Cap, imm: i32, target: u64) -> Result<(), Cause>
    ensures { result ≡ passed (tests_of_jump cap imm target) }
{
    if !cap.tag {
        return Err(Cause::Tag);
    }
    if !(cap.kind() == 0 || cap.is_entry() && imm == 0) {
        return Err(Cause::Sealed);
    }
    if !cap.allows(EXECUTE) {
        return Err(Cause::Permission);
    }
    test_target(cap, target)
}

// A sealed entry as a plain capability.
fn unsealed(cap: Cap) -> Cap
    ensures { result ≡ unsealed cap }
{
    if cap.is_entry() {
        cap.unseal_entry()
    } else {
        cap
    }
}

// A number without its bit 0.
fn even_below(n: u64) -> u64
    ensures { result ≡ even_below n }
{
    n - n % 2
}
