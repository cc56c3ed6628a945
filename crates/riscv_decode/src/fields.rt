// The fields and the immediates of a word, and a word from its fields.
ghost use Rattle.std.specs.Prelude.{◌≡◌, ◌<◌, ◌*◌, ◌^◌, ℤ, pos, ◌-ℤ◌, ◌≤ℤ◌, ◌<ℤ◌, nat_lt, if◌then◌else◌};
ghost use Rattle.riscv_decode.specs.Words.{field, opcode_of, rd_of, funct3_of, rs1_of, rs2_of, funct7_of, immediate_i, immediate_s, immediate_b, immediate_u, immediate_j};
ghost use Rattle.riscv_decode.specs.Encoded.{joined, unsigned_of, placed_b, placed_j};

/// So many bits of a word, from this one on.
pub fn field(word: u32, low: u32, width: u32) -> u32
    requires low { low < 32 }
    requires width { width < 32 }
    ensures value { result ≡ field word low width }
    ensures below { result < 2 ^ width }
{
    (word >> low) % (1 << width)
}

/// The bits that say which table a row is in.
pub fn opcode_of(word: u32) -> u32
    ensures { result ≡ opcode_of word }
{
    field(word, 0, 7)
}

/// The register that is written.
pub fn rd_of(word: u32) -> u8
    ensures { result ≡ rd_of word }
{
    field(word, 7, 5) as u8
}

/// The bits between the destination and the first source.
pub fn funct3_of(word: u32) -> u32
    ensures { result ≡ funct3_of word }
{
    field(word, 12, 3)
}

/// The first register that is read.
pub fn rs1_of(word: u32) -> u8
    ensures { result ≡ rs1_of word }
{
    field(word, 15, 5) as u8
}

/// The second register that is read.
pub fn rs2_of(word: u32) -> u8
    ensures { result ≡ rs2_of word }
{
    field(word, 20, 5) as u8
}

/// The highest bits.
pub fn funct7_of(word: u32) -> u32
    ensures { result ≡ funct7_of word }
{
    field(word, 25, 7)
}

/// A number below twice this half, where one from the half on stands for a negative one.
fn signed(half: u32, number: u32) -> i32
    requires small { half < 2 ^ 24 }
    requires below { number < 2 * half }
    ensures { result ≡ (if nat_lt number half then pos number else pos number -ℤ pos (2 * half)) }
{
    if number < half {
        number as i32
    } else {
        number as i32 - 2 * half as i32
    }
}

/// The immediate of format I.
pub fn immediate_i(word: u32) -> i32
    ensures { result ≡ immediate_i word }
{
    signed(1 << 11, field(word, 20, 12))
}

/// The immediate of format S.
pub fn immediate_s(word: u32) -> i32
    ensures { result ≡ immediate_s word }
{
    signed(1 << 11, (field(word, 25, 7) << 5) + field(word, 7, 5))
}

/// The distance of format B.
pub fn immediate_b(word: u32) -> i32
    ensures { result ≡ immediate_b word }
{
    let sign = field(word, 31, 1) << 12;
    let high = (field(word, 7, 1) << 11) + (field(word, 25, 6) << 5);
    signed(1 << 12, sign + high + (field(word, 8, 4) << 1))
}

/// The immediate of format U.
pub fn immediate_u(word: u32) -> u32
    ensures { result ≡ immediate_u word }
{
    field(word, 12, 20)
}

/// The distance of format J.
pub fn immediate_j(word: u32) -> i32
    ensures { result ≡ immediate_j word }
{
    let sign = field(word, 31, 1) << 20;
    let high = (field(word, 12, 8) << 12) + (field(word, 20, 1) << 11);
    signed(1 << 20, sign + high + (field(word, 21, 10) << 1))
}

/// The bits of a number from this size below 0 to below this size, where so many bits hold the size.
pub fn unsigned_of(size: i32, number: i32) -> u32
    requires size { size <ℤ pos (2 ^ 24) }
    requires least { (pos 0 -ℤ size) ≤ℤ number }
    requires past { number <ℤ size }
    ensures { result ≡ unsigned_of size number }
{
    if number < 0 {
        (size + number) as u32
    } else {
        number as u32
    }
}

/// The 13 bits of a branch's distance as the 12 bits that format S puts in its place.
pub fn placed_b(bits: u32) -> u32
    requires { bits < 2 ^ 13 }
    ensures value { result ≡ placed_b bits }
    ensures below { result < 2 ^ 12 }
{
    let low = (bits / 2 % 16) * 2 + bits / 2048 % 2;
    low + (bits / 32 % 64) * 32 + (bits / 4096) * 2048
}

/// The 21 bits of a jump's distance as the 20 bits that format U puts in its place.
pub fn placed_j(bits: u32) -> u32
    requires { bits < 2 ^ 21 }
    ensures value { result ≡ placed_j bits }
    ensures below { result < 2 ^ 20 }
{
    let low = bits / 4096 % 256 + (bits / 2048 % 2) * 256;
    low + (bits / 2 % 1024) * 512 + (bits / 1048576) * 524288
}

/// The word of six fields, in the places of format R.
pub fn joined(opcode: u32, rd: u32, funct3: u32, rs1: u32, rs2: u32, funct7: u32) -> u32
    requires opcode { opcode < 128 }
    requires rd { rd < 32 }
    requires funct3 { funct3 < 8 }
    requires rs1 { rs1 < 32 }
    requires rs2 { rs2 < 32 }
    requires funct7 { funct7 < 128 }
    ensures { result ≡ joined opcode rd funct3 rs1 rs2 funct7 }
{
    opcode + (rd << 7) + (funct3 << 12) + (rs1 << 15) + (rs2 << 20) + (funct7 << 25)
}
