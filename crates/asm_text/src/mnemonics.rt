// The names of instructions, and the list of them.
ghost use Rattle.std.specs.Prelude.{◌≡◌};
ghost use Rattle.asm_text.specs.Mnemonics.{reg_name, imm_name, load_name, store_name, branch_name, upper_name, one_name, mnemonic};

use riscv_decode::{BranchOp, ImmOp, Instr, LoadOp, OneOp, RegOp, StoreOp, UpperOp};

// The name of an operation on two registers.
fn reg_name(op: RegOp) -> &'static [u8]
    ensures { result.now ≡ reg_name op }
{
    match op {
        RegOp::Add => b"add",
        RegOp::Sub => b"sub",
        RegOp::Sll => b"sll",
        RegOp::Slt => b"slt",
        RegOp::Sltu => b"sltu",
        RegOp::Xor => b"xor",
        RegOp::Srl => b"srl",
        RegOp::Sra => b"sra",
        RegOp::Or => b"or",
        RegOp::And => b"and",
        RegOp::Mul => b"mul",
        RegOp::Mulh => b"mulh",
        RegOp::Mulhsu => b"mulhsu",
        RegOp::Mulhu => b"mulhu",
        RegOp::Div => b"div",
        RegOp::Divu => b"divu",
        RegOp::Rem => b"rem",
        RegOp::Remu => b"remu",
        RegOp::Addw => b"addw",
        RegOp::Subw => b"subw",
        RegOp::Sllw => b"sllw",
        RegOp::Srlw => b"srlw",
        RegOp::Sraw => b"sraw",
        RegOp::Mulw => b"mulw",
        RegOp::Divw => b"divw",
        RegOp::Divuw => b"divuw",
        RegOp::Remw => b"remw",
        RegOp::Remuw => b"remuw",
        RegOp::CSetBounds => b"csetbounds",
        RegOp::CSetBoundsExact => b"csetboundsexact",
        RegOp::CAndPerm => b"candperm",
        RegOp::CSetAddr => b"csetaddr",
        RegOp::CIncOffset => b"cincoffset",
        RegOp::CSub => b"csub",
        RegOp::CTestSubset => b"ctestsubset",
        RegOp::CSeqx => b"cseqx",
    }
}

// The name of one on a register and an immediate.
fn imm_name(op: ImmOp) -> &'static [u8]
    ensures { result.now ≡ imm_name op }
{
    match op {
        ImmOp::Addi => b"addi",
        ImmOp::Slti => b"slti",
        ImmOp::Sltiu => b"sltiu",
        ImmOp::Xori => b"xori",
        ImmOp::Ori => b"ori",
        ImmOp::Andi => b"andi",
        ImmOp::Slli => b"slli",
        ImmOp::Srli => b"srli",
        ImmOp::Srai => b"srai",
        ImmOp::Addiw => b"addiw",
        ImmOp::Slliw => b"slliw",
        ImmOp::Srliw => b"srliw",
        ImmOp::Sraiw => b"sraiw",
        ImmOp::CIncOffsetImm => b"cincoffsetimm",
        ImmOp::CSetBoundsImm => b"csetboundsimm",
    }
}

// The name of a load.
fn load_name(op: LoadOp) -> &'static [u8]
    ensures { result.now ≡ load_name op }
{
    match op {
        LoadOp::Lb => b"lb",
        LoadOp::Lh => b"lh",
        LoadOp::Lw => b"lw",
        LoadOp::Ld => b"ld",
        LoadOp::Lbu => b"lbu",
        LoadOp::Lhu => b"lhu",
        LoadOp::Lwu => b"lwu",
        LoadOp::Clc => b"clc",
    }
}

// The name of a store.
fn store_name(op: StoreOp) -> &'static [u8]
    ensures { result.now ≡ store_name op }
{
    match op {
        StoreOp::Sb => b"sb",
        StoreOp::Sh => b"sh",
        StoreOp::Sw => b"sw",
        StoreOp::Sd => b"sd",
        StoreOp::Csc => b"csc",
    }
}

// The name of a branch.
fn branch_name(op: BranchOp) -> &'static [u8]
    ensures { result.now ≡ branch_name op }
{
    match op {
        BranchOp::Beq => b"beq",
        BranchOp::Bne => b"bne",
        BranchOp::Blt => b"blt",
        BranchOp::Bge => b"bge",
        BranchOp::Bltu => b"bltu",
        BranchOp::Bgeu => b"bgeu",
    }
}

// The name of an operation with an upper immediate.
fn upper_name(op: UpperOp) -> &'static [u8]
    ensures { result.now ≡ upper_name op }
{
    match op {
        UpperOp::Lui => b"lui",
        UpperOp::Auipcc => b"auipcc",
    }
}

// The name of one on one register.
fn one_name(op: OneOp) -> &'static [u8]
    ensures { result.now ≡ one_name op }
{
    match op {
        OneOp::CGetPerm => b"cgetperm",
        OneOp::CGetBase => b"cgetbase",
        OneOp::CGetLen => b"cgetlen",
        OneOp::CGetTag => b"cgettag",
        OneOp::CGetSealed => b"cgetsealed",
        OneOp::CGetOffset => b"cgetoffset",
        OneOp::Crrl => b"crrl",
        OneOp::Cram => b"cram",
        OneOp::CMove => b"cmove",
        OneOp::CClearTag => b"ccleartag",
        OneOp::CGetAddr => b"cgetaddr",
        OneOp::CSealEntry => b"csealentry",
    }
}

/// The name of an instruction.
pub fn mnemonic(instr: &Instr) -> &'static [u8]
    ensures { result.now ≡ mnemonic instr.now }
{
    match instr {
        Instr::Reg { op, .. } => reg_name(*op),
        Instr::Imm { op, .. } => imm_name(*op),
        Instr::Load { op, .. } => load_name(*op),
        Instr::Store { op, .. } => store_name(*op),
        Instr::Branch { op, .. } => branch_name(*op),
        Instr::Upper { op, .. } => upper_name(*op),
        Instr::Jal { .. } => b"cjal",
        Instr::Jalr { .. } => b"cjalr",
        Instr::One { op, .. } => one_name(*op),
        Instr::Ecall => b"ecall",
        Instr::Ebreak => b"ebreak",
        Instr::Fence => b"fence",
    }
}
