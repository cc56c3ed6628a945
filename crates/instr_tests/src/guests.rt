// Guests: a process in region 0 of a space, with one page of code and three of data, and its instructions one by one.
ghost use Rattle.std.specs.Prelude.{◌≡◌, ◌<◌, ◌≤◌, ℕ, IsTrue, IfOk, length};
ghost use Rattle.cap_format.specs.Code.{IsCode};
ghost use Rattle.cap_format.specs.Region.{IsInside};
ghost use Rattle.machine_types.specs.Registers.{AreInside, IsRegisterFile};
ghost use Rattle.contents.specs.Conditions.{HasStore, LacksPage};
ghost use Rattle.stores.specs.Known.{StandsFor};
ghost use Rattle.full_space.specs.Full.{FullStands};
ghost use Rattle.cheri_step.specs.Effect.{CanStep};

use cap_format::{Cap, EXECUTE, PAGE_BYTES, PAGE_GRANULES, REGION_PAGES};
use cheri_step::{StepEnd, Stepped, step_instr};
use full_space::FullSpace;
use machine_types::{NoFrame, RIGHT_R, RIGHT_W, RIGHT_X, Regs};
use riscv_decode::{Instr, encode};
use std::alloc::Global;
use std::test::Fail;
use stores::{Board, Stores};

/// The first bytes of each page of data.
pub const DATA: [u8; 16] = [
    0xf0, 0xe1, 0xd2, 0xc3, 0xb4, 0xa5, 0x96, 0x87, 0x01, 0x12, 0x23, 0x34, 0x45, 0x56, 0x67, 0x78,
];

/// A process in region 0: page 0 has its code and may be fetched only, page 1 may be read and written, page 2 only read and
/// page 3 only written. The pages from 4 on are absent.
#[derive(Drop)]
pub struct Guest {
    space: FullSpace,
    regs: Regs,
    pcc: Cap,
    ghost ready: { ∥ StandsFor FullStands space (CanStep 0 regs pcc) ∥₁ },
}

impl Guest {
    /// A guest with this code on page 0, this PCC, and these registers; the others are null.
    pub fn new(
        alloc: Global,
        code: &[Instr],
        pcc: Cap,
        values: &[(u8, Cap)],
    ) -> Result<Guest, Fail> {
        if !is_pcc(pcc) {
            return Err(Fail::from("not a PCC of region 0"));
        }
        let bytes = bytes_of(alloc, code)?;
        let space = begin_pages(alloc, &bytes)?;
        let regs = registers(values)?;
        Ok(Guest { space, regs, pcc })
    }

    /// Makes one instruction.
    pub fn step(&mut self) -> Stepped {
        step_instr(&mut self.regs, &mut self.pcc, 0, &mut self.space)
    }

    /// Makes instructions until one ends otherwise than by going on, but no more than so many. It gives how many went on, and
    /// the last end.
    pub fn run(&mut self, most: u32) -> (u32, StepEnd) {
        for count in 0..most {
            let end = self.step().end;
            if end != StepEnd::Next {
                return (count, end);
            }
        }
        (most, StepEnd::Next)
    }

    /// The register of that number.
    pub fn reg(&self, n: u8) -> Cap
        requires { n < 32 }
    {
        self.regs.get(n)
    }

    /// PCC.
    pub fn pcc(&self) -> Cap {
        self.pcc
    }

    /// A granule of a page.
    pub fn granule(&self, page: u32, granule: u32) -> Option<Cap>
        requires page { page < REGION_PAGES }
        requires granule { granule < PAGE_GRANULES }
    {
        self.space.peek(0, page, granule)
    }

    /// All registers.
    pub fn registers(&self, alloc: Global) -> Result<Vec<Option<Cap>>, Fail> {
        let mut registers = Vec::new(alloc);
        for n in 0..32 {
            registers.push(Some(self.reg(n)))?;
        }
        Ok(registers)
    }

    /// All granules of the four pages and of the absent one behind them.
    pub fn memory(&self, alloc: Global) -> Result<Vec<Option<Cap>>, Fail> {
        let mut granules = Vec::new(alloc);
        for page in 0..5 {
            for granule in 0..PAGE_GRANULES as u32 {
                granules.push(self.granule(page, granule))?;
            }
        }
        Ok(granules)
    }
}

// Whether this may be the PCC of a process of region 0.
fn is_pcc(cap: Cap) -> bool
    ensures code { IsTrue result → IsCode cap }
    ensures inside { IsTrue result → IsInside cap.bits 0 }
{
    cap.tag && cap.kind() == 0 && cap.allows(EXECUTE) && cap.address() % 4 == 0 && cap.inside(0)
}

/// The words of instructions, each of four bytes, the lowest first.
pub fn bytes_of(alloc: Global, code: &[Instr]) -> Result<Vec<u8>, Fail> {
    let mut bytes = Vec::new(alloc);
    for instr in code {
        let word = encode(instr).ok_or("no word")?;
        bytes.extend_from_slice(&word.to_le_bytes())?;
    }
    Ok(bytes)
}

// A space in which region 0 has the four pages of a guest.
fn begin_pages(alloc: Global, code: &[u8]) -> Result<FullSpace, Fail>
    ensures { IfOk result (λ space. ∥ StandsFor FullStands space (HasStore 0) ∥₁) }
{
    if code.len() > PAGE_BYTES {
        return Err(Fail::from("code of more than a page"));
    }
    let mut space = FullSpace::new(Board::new(alloc, 4)?);
    space.begin(0);
    add_next_page(&mut space, 0, RIGHT_X, code)?;
    add_next_page(&mut space, 1, RIGHT_R | RIGHT_W, &DATA)?;
    add_next_page(&mut space, 2, RIGHT_R, &DATA)?;
    add_next_page(&mut space, 3, RIGHT_W, &DATA)?;
    Ok(space)
}

// Adds a page to region 0, which has none from that on.
fn add_next_page(space: &mut FullSpace, page: u32, rights: u8, bytes: &[u8]) -> Result<(), NoFrame>
    requires page { page < REGION_PAGES }
    requires rights { rights < 8 }
    requires within { length bytes.now ≤ PAGE_BYTES }
    requires lacks { (p : ℕ) → page ≤ p → ∥ StandsFor FullStands space.old (LacksPage 0 p) ∥₁ }
    ensures lacks { (p : ℕ) → page < p → ∥ StandsFor FullStands space.new (LacksPage 0 p) ∥₁ }
{
    space.add_page(0, page, rights, bytes)
}

// Registers with these numbers and values, each of which is inside region 0 where it is tagged.
fn registers(values: &[(u8, Cap)]) -> Result<Regs, Fail>
    ensures file { IfOk result IsRegisterFile }
    ensures inside { IfOk result (λ regs. AreInside regs 0) }
{
    let mut regs = Regs::new();
    for &(n, cap) in values {
        if n >= 32 || cap.tag && !cap.inside(0) {
            return Err(Fail::from("not a register of region 0"));
        }
        regs.put(n, cap);
    }
    Ok(regs)
}

/// How many are not as they were.
pub fn changes(before: &[Option<Cap>], after: &[Option<Cap>]) -> usize {
    before
        .iter()
        .zip(after.iter())
        .filter(|(a, b)| a != b)
        .count()
}
