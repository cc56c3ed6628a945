// One instruction.
ghost use Rattle.std.specs.Prelude.{◌≡◌, ◌<◌, ◌^◌, List, ◌∷◌, [], not, IsTrue, IsOk, IfOk};
ghost use Rattle.cap_format.specs.declared.cap.Cap.{Cap};
ghost use Rattle.machine_types.specs.Registers.{AreInside, with_register};
ghost use Rattle.cap_format.specs.Code.{IsCode};
ghost use Rattle.cap_format.specs.Region.{IsInside};
ghost use Rattle.riscv_decode.specs.Table.{IsInRange};
ghost use Rattle.contents.specs.Content.{Content};
ghost use Rattle.contents.specs.Accesses.{untouched};
ghost use Rattle.stores.specs.Known.{StandsFor, Any, KeepsStores, FramesStayBut};
ghost use Rattle.cheri_step.specs.Results.{next_pcc};
ghost use Rattle.cheri_step.specs.Access.{fetch_cause, code_of};
ghost use Rattle.cheri_step.specs.Held.{notes_of_access, is_access, MayGoOn};
ghost use Rattle.cheri_step.specs.Plans.{ends, goes_on, gives, extended_from, loaded, planned};
ghost use Rattle.cheri_step.specs.Effect.{state, performed, work_of, effect, CanStep, HasWork, HasEffect};

use crate::jumps::{branch, displaced, go_on, jump_by, jump_to, next_pcc};
use crate::memory::{MemoryOp, access, place_in};
use crate::results::{imm_result, one_result, reg_result, upper_result};
use cap_format::{Cap, LOAD_CAPABILITY, MOST_REGIONS};
use contents::Refusal;
use int_step::taken;
use machine_types::{Cause, Note, Regs, Touched};
use riscv_decode::{Instr, LoadOp, decode};
use stores::Stores;

/// How an instruction ended.
#[derive(Clone, Copy, Debug, PartialEq, Eq)]
pub enum StepEnd {
    /// It is done, and PCC stands at the instruction that follows.
    Next,
    /// It is an ecall. Registers, PCC and stores are as before.
    Call,
    /// The process is killed. Registers, PCC and stores are as before.
    Fault(Cause),
}

/// What an instruction came to.
#[derive(Clone, Copy, Debug, PartialEq, Eq)]
pub struct Stepped {
    pub end: StepEnd,
    /// The word that was fetched. There is none exactly where the fetch was refused, by [`Cause::CodeBounds`],
    /// [`Cause::CodePage`] or [`Cause::NoFrame`].
    pub word: Option<u32>,
    /// The touch that the fetch made. It stays where the instruction is a fault later.
    pub fetched: Note,
    /// The touch that the load or the store made.
    pub touched: Note,
}

/// What an instruction came to after its fetch.
#[derive(Clone, Copy)]
pub struct Worked {
    pub end: StepEnd,
    pub touched: Note,
}

/// Makes the instruction at PCC, for the process of a region, which is below [`MOST_REGIONS`].
///
/// PCC is tagged and plain, may execute and is at a multiple of 4; PCC and each tagged register lie inside the region, which has a
/// store. All of this holds again afterwards. A fault comes exactly where a test of the instruction fails, with the cause of the
/// first one. It takes no memory.
pub fn step_instr<S: Stores>(regs: &mut Regs, pcc: &mut Cap, region: u32, space: &mut S) -> Stepped
    requires region { region < MOST_REGIONS }
    requires ready { ∥ StandsFor S.stands_for space.old (CanStep region regs.old pcc.old) ∥₁ }
    ensures effect { (c : Content) → S.stands_for space.old c → HasEffect (effect (state regs.old pcc.old c) region) result regs.new pcc.new (S.stands_for space.new) }
    ensures ready { ∥ StandsFor S.stands_for space.new (CanStep region regs.new pcc.new) ∥₁ }
    ensures keeps { KeepsStores S.stands_for space.old space.new }
    ensures frames { FramesStayBut (S.translation_at space.old) (S.translation_at space.new) region (result.fetched ∷ result.touched ∷ []) }
{
    match fetch(*pcc, region, space) {
        Ok((word, note)) => {
            let worked = execute(regs, pcc, region, space, word);
            Stepped {
                end: worked.end,
                word: Some(word),
                fetched: note,
                touched: worked.touched,
            }
        }
        Err(cause) => Stepped {
            end: StepEnd::Fault(cause),
            word: None,
            fetched: untouched(),
            touched: untouched(),
        },
    }
}

// The word at PCC, with the touch that the fetch made.
fn fetch<S: Stores>(pcc: Cap, region: u32, space: &mut S) -> Result<(u32, Note), Cause>
    requires region { region < MOST_REGIONS }
    requires code { IsCode pcc }
    requires inside { IsInside pcc.bits region }
    requires some { ∥ StandsFor S.stands_for space.old Any ∥₁ }
    ensures answer { (c : Content) → S.stands_for space.old c → result ≡ (code_of c region pcc).answer }
    ensures after { (c : Content) → S.stands_for space.old c → S.stands_for space.new (code_of c region pcc).after }
    ensures some { ∥ StandsFor S.stands_for space.new Any ∥₁ }
    ensures frames { FramesStayBut (S.translation_at space.old) (S.translation_at space.new) region (notes_of_access result) }
    ensures pattern { pcc.bits < 2 ^ 128 }
    ensures goes_on { IsOk result → MayGoOn pcc }
{
    let address = pcc.address();
    if !pcc.holds(address, 4) {
        return Err(Cause::CodeBounds);
    }
    match space.fetch(region, place_in(region, address)) {
        Ok(fetched) => Ok(fetched),
        Err(refusal) => Err(fetch_cause(refusal)),
    }
}

// Executes the word that was fetched.
fn execute<S: Stores>(
    regs: &mut Regs,
    pcc: &mut Cap,
    region: u32,
    space: &mut S,
    word: u32,
) -> Worked
    requires region { region < MOST_REGIONS }
    requires goes_on { MayGoOn pcc.old }
    requires inside { AreInside regs.old region }
    requires some { ∥ StandsFor S.stands_for space.old Any ∥₁ }
    ensures work { (c : Content) → S.stands_for space.old c → HasWork (work_of (state regs.old pcc.old c) region word) result regs.new pcc.new (S.stands_for space.new) }
    ensures frames { FramesStayBut (S.translation_at space.old) (S.translation_at space.new) region (result.touched ∷ []) }
{
    match decode(word) {
        Some(Instr::Load { op, rd, rs1, imm }) => {
            let authority = regs.get(rs1);
            let address = displaced(authority, imm);
            let accessed = access(space, region, authority, address, MemoryOp::Load(op));
            load(regs, pcc, op, rd, authority, accessed)
        }
        Some(Instr::Store { op, rs1, rs2, imm }) => {
            let authority = regs.get(rs1);
            let address = displaced(authority, imm);
            let stored = MemoryOp::Store(op, regs.get(rs2));
            store(pcc, access(space, region, authority, address, stored))
        }
        Some(instr) => ended(compute(regs, pcc, instr)),
        None => ended(StepEnd::Fault(Cause::BadInstruction)),
    }
}

// Ends a load whose access came to this.
fn load(
    regs: &mut Regs,
    pcc: &mut Cap,
    op: LoadOp,
    rd: u8,
    authority: Cap,
    accessed: Result<(Cap, Note), Cause>,
) -> Worked
    requires rd { rd < 32 }
    requires goes_on { MayGoOn pcc.old }
    ensures work { (c after : Content) → performed (state regs.old pcc.old c) (λ value. with_register regs.old rd (loaded op authority value)) after accessed
        ≡ record { end = result.end; after = state regs.new pcc.new after; touched = result.touched } }
    ensures note { IfOk accessed (λ a. result.touched ≡ a.1) }
{
    match accessed {
        Ok((value, note)) => {
            regs.put(rd, loaded(op, authority, value));
            *pcc = next_pcc(*pcc);
            touching(note)
        }
        Err(cause) => ended(StepEnd::Fault(cause)),
    }
}

// Ends a store whose access came to this.
fn store(pcc: &mut Cap, accessed: Result<(Cap, Note), Cause>) -> Worked
    requires { MayGoOn pcc.old }
    ensures work { (registers : List Cap) (c after : Content) → performed (state registers pcc.old c) (λ value. registers) after accessed
        ≡ record { end = result.end; after = state registers pcc.new after; touched = result.touched } }
    ensures note { IfOk accessed (λ a. result.touched ≡ a.1) }
{
    match accessed {
        Ok((_, note)) => {
            *pcc = next_pcc(*pcc);
            touching(note)
        }
        Err(cause) => ended(StepEnd::Fault(cause)),
    }
}

// An instruction that makes no load and no store.
fn compute(regs: &mut Regs, pcc: &mut Cap, instr: Instr) -> StepEnd
    requires range { IsInRange instr }
    requires no_access { IsTrue (not (is_access instr)) }
    requires goes_on { MayGoOn pcc.old }
    ensures { planned regs.old pcc.old instr ≡ ends result regs.new pcc.new }
{
    match instr {
        Instr::Reg { op, rd, rs1, rs2 } => {
            let result = reg_result(op, regs.get(rs1), regs.get(rs2));
            give(regs, pcc, rd, result)
        }
        Instr::Imm { op, rd, rs1, imm } => {
            let result = imm_result(op, regs.get(rs1), imm);
            give(regs, pcc, rd, result)
        }
        Instr::Upper { op, rd, imm } => {
            let result = upper_result(op, *pcc, imm);
            give(regs, pcc, rd, result)
        }
        Instr::One { op, rd, rs1 } => {
            let result = one_result(op, regs.get(rs1));
            give(regs, pcc, rd, result)
        }
        Instr::Branch { op, rs1, rs2, imm } => {
            let is_taken = taken(op, regs.get(rs1).address(), regs.get(rs2).address());
            branch(pcc, is_taken, imm)
        }
        Instr::Jal { rd, imm } => jump_by(regs, pcc, rd, imm),
        Instr::Jalr { rd, rs1, imm } => {
            let cap = regs.get(rs1);
            jump_to(regs, pcc, rd, cap, imm)
        }
        Instr::Ecall => StepEnd::Call,
        Instr::Ebreak => StepEnd::Fault(Cause::Breakpoint),
        Instr::Load { .. } | Instr::Store { .. } | Instr::Fence => go_on(pcc),
    }
}

// Puts the result of an instruction, and goes on to the next one.
fn give(regs: &mut Regs, pcc: &mut Cap, n: u8, given: Cap) -> StepEnd
    requires n { n < 32 }
    requires goes_on { MayGoOn pcc.old }
    ensures { gives regs.old pcc.old n given ≡ ends result regs.new pcc.new }
{
    regs.put(n, given);
    go_on(pcc)
}

// What a load puts into its register.
fn loaded(op: LoadOp, authority: Cap, value: Cap) -> Cap
    ensures { result ≡ loaded op authority value }
{
    match op {
        LoadOp::Lb => extended_from(8, value),
        LoadOp::Lh => extended_from(16, value),
        LoadOp::Lw => extended_from(32, value),
        LoadOp::Clc => Cap {
            bits: value.bits,
            tag: value.tag && authority.allows(LOAD_CAPABILITY),
        },
        _ => value,
    }
}

// No page was touched.
fn untouched() -> Note
    ensures { result ≡ untouched }
{
    Note {
        page: 0,
        touched: Touched::No,
    }
}

// The end of an instruction that touched no page.
fn ended(end: StepEnd) -> Worked
    ensures { result ≡ record { end = end; touched = untouched } }
{
    Worked {
        end,
        touched: untouched(),
    }
}

// The end of a load or a store.
fn touching(note: Note) -> Worked
    ensures { result ≡ record { end = StepEnd.Next; touched = note } }
{
    Worked {
        end: StepEnd::Next,
        touched: note,
    }
}

// The cause of a fetch that is refused.
fn fetch_cause(refusal: Refusal) -> Cause
    ensures { result ≡ fetch_cause refusal }
{
    match refusal {
        Refusal::NoPage | Refusal::NoRight => Cause::CodePage,
        Refusal::NoFrame => Cause::NoFrame,
    }
}

// The number in the low bits of a capability, of so many, with its sign.
fn extended_from(width: u32, value: Cap) -> Cap
    requires least { 0 < width }
    requires most { width < 64 }
    ensures { result ≡ extended_from width value }
{
    let n = value.address();
    if n < 1 << (width - 1) {
        Cap::from_int(n)
    } else {
        Cap::from_int(n.wrapping_sub(1 << width))
    }
}
