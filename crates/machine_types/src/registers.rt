// The register file.
ghost use Rattle.std.specs.Prelude.{◌≡◌, ◌≢◌, ◌<◌, ℕ, IsTrue, replicate};

use cap_format::Cap;
use std::marker::Model;

/// The 32 capability registers. Register 0 is always null.
#[derive(Drop)]
pub struct Regs {
    capabilities: [Cap; 32],
}

impl Model for Regs {
    ghost use Rattle.std.specs.Prelude.{List};
    ghost use Rattle.cap_format.specs.declared.cap.Cap.{Cap};
    ghost use Rattle.machine_types.specs.Registers.{IsRegisterFile};

    ghost Value = { List Cap };

    ghost view = { λ r. r.capabilities };

    ghost invariant = { λ r. IsRegisterFile r.capabilities };
}

impl Regs {
    ghost use Rattle.cap_format.specs.Made.{null};
    ghost use Rattle.machine_types.specs.Registers.{register, with_register, IsRegisterFile, AreInside};
    ghost use Rattle.cap_format.specs.Region.{IsInside};

    /// All registers are null.
    pub fn new() -> Regs
        ensures is { result ≡ replicate 32 null }
        ensures inside { (region : ℕ) → AreInside result region }
        ensures whole { IsRegisterFile result }
    {
        Regs {
            capabilities: [Cap::null(); 32],
        }
    }

    /// The register of that number, which is below 32.
    pub fn get(&self, n: u8) -> Cap
        requires { n < 32 }
        ensures value { result ≡ register self.now n }
        ensures zero { n ≡ 0 → result ≡ null }
        ensures whole { IsRegisterFile self.now }
    {
        self.capabilities[usize::from(n)]
    }

    /// Puts a capability into the register of that number, which is below 32. Register 0 stays null.
    pub fn put(&mut self, n: u8, c: Cap)
        requires { n < 32 }
        ensures is { self.new ≡ with_register self.old n c }
        ensures given { 0 < n → register self.new n ≡ c }
        ensures others { (k : ℕ) → k ≢ n → register self.new k ≡ register self.old k }
        ensures inside { (region : ℕ) → AreInside self.old region → (IsTrue c.tag → IsInside c.bits region) → AreInside self.new region }
        ensures whole { IsRegisterFile self.new }
    {
        if n != 0 {
            self.capabilities[usize::from(n)] = c;
        }
    }
}
