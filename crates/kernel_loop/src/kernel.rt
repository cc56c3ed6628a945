// The kernel: what it is booted from, its steps, and what may be seen of it.
ghost use Rattle.std.specs.Prelude.{◌≡◌, ◌<◌, ◌≤◌, ◌+◌, [], All, IfOk, IfErr, Ok};
ghost use Rattle.contents.specs.Content.{nothing};
ghost use Rattle.elf_loader.specs.Loaded.{IsRead};
ghost use Rattle.machine_types.specs.declared.config.Outcome.TheVariants.{Running};
ghost use Rattle.machine.specs.Machines.{Machine};
ghost use Rattle.machine.specs.Readiness.{outcome_of};
ghost use Rattle.machine.specs.Shape.{IsConfig};
ghost use Rattle.machine.specs.Sound.{IsQuantum};
ghost use Rattle.machine_steps.specs.Numbers.{step_limit};
ghost use Rattle.machine_steps.specs.Runs.{quanta_of, start};
ghost use Rattle.machine_steps.specs.Steps.{step_of};
ghost use Rattle.kernel_loop.specs.Stands.{SomeMachine, Any, IsKept};

use crate::boot::{are_bytes, empty_world, first_core};
use crate::stepping::Core;
use elf_loader::Image;
use machine::{StepReport, cuts_agree};
use machine_steps::{machines_stay_machines, runs_are_sound, steps_stay_good};
use machine_types::{Config, NoMemory, Outcome, Schedule};
use std::alloc::Global;
use stores::Stores;
use trap_syscalls::World;

/// Why a kernel was not booted.
#[derive(Clone, Copy, Debug, PartialEq, Eq)]
pub enum BootReason {
    /// The image has more pages than there are frames.
    NoFrames { pages: u32, frames: u32 },
    /// There was no memory for the tables of the kernel.
    NoMemory,
}

/// A boot that was refused.
#[derive(Drop)]
pub struct BootRefusal<S> {
    /// The space that was handed over, as it was.
    pub space: S,
    /// Why it was refused.
    pub reason: BootReason,
}

/// A kernel over a space of stores: all processes of a machine, with their descriptors, pipes and stores, the console and the clock.
///
/// It always stands for a sound machine: its space stands for that machine's stores and frame account, and all else is equal. Each clause
/// holds of every machine for which it stands.
pub struct Kernel<S: Stores> {
    core: Core<S>,
    ghost sound: { ∥ SomeMachine S.stands_for core Any ∥₁ },
}

impl<S: Stores> Kernel<S> {
    ghost use Rattle.kernel_loop.specs.Kernels.{KernelStands, IsReason, steps_of, piece_of};

    /// A kernel with process 1, which has the image's pages in region 0 and stands in slot 0. It has made no step and printed nothing, and the
    /// console's input is `input`.
    ///
    /// The numbers of `config` are within its limits, `image` was read from `bytes`, no region of `space` has a store and no page a class,
    /// its rule and its number of frames are those of `config`, and each quantum of the schedule is from 1 to 1000000.
    ///
    /// All memory that the kernel ever takes is taken first, so that no later call takes any. [`BootReason::NoMemory`] comes where it is
    /// not to be had, and [`BootReason::NoFrames`] exactly where the image has more pages than there are frames. A refusal hands the
    /// space back as it was.
    pub fn boot(
        alloc: Global,
        config: &Config,
        image: &Image,
        bytes: &[u8],
        input: Vec<u8>,
        schedule: Schedule,
        space: S,
    ) -> Result<Kernel<S>, BootRefusal<S>>
        requires config { IsConfig config.now }
        requires read { IsRead bytes.now (Ok image.now) }
        requires quanta { All IsQuantum (quanta_of schedule) }
        requires fresh { S.stands_for space (nothing config.now.rule config.now.frames) }
        ensures stands { IfOk result (λ k. KernelStands S.stands_for k (start (record { config = config.now; schedule = schedule; file = bytes.now; input = input.items }))) }
        ensures silent { IfOk result (λ k. piece_of k ≡ []) }
        ensures room { IfOk result (λ k. image.now.pages ≤ config.now.frames) }
        ensures back { IfErr result (λ refusal. refusal.space ≡ space) }
        ensures lacked { IfErr result (λ refusal. IsReason image.now.pages config.now.frames refusal.reason) }
    {
        are_bytes(bytes);
        are_bytes(&input);
        let world = match empty_world(alloc, config, input) {
            Ok(world) => world,
            Err(NoMemory) => {
                return Err(BootRefusal {
                    space,
                    reason: BootReason::NoMemory,
                });
            }
        };
        if config.frames < image.pages {
            return Err(BootRefusal {
                space,
                reason: BootReason::NoFrames {
                    pages: image.pages,
                    frames: config.frames,
                },
            });
        }
        runs_are_sound();
        Ok(Kernel {
            core: first_core(*config, schedule, image, bytes, world, space),
        })
    }

    /// Makes one step: a dispatch of the next ready slot, where no slot is current; one instruction of the current process, or one attempt
    /// of its call; and then the clock. It has no refusal, and takes no memory.
    ///
    /// The outcome is [`Outcome::Running`], and fewer than [`STEP_LIMIT`](machine_steps::STEP_LIMIT) steps were made.
    pub fn step(&mut self) -> StepReport
        requires running { (m : Machine) → KernelStands S.stands_for self.old m → outcome_of m ≡ Running }
        requires early { steps_of self.old < step_limit }
        ensures next { (m : Machine) → KernelStands S.stands_for self.old m → KernelStands S.stands_for self.new (step_of m).next }
        ensures report { (m : Machine) → KernelStands S.stands_for self.old m → result ≡ (step_of m).report }
        ensures printed { (m : Machine) → KernelStands S.stands_for self.old m → piece_of self.new ≡ (step_of m).printed }
        ensures counted { steps_of self.new ≡ steps_of self.old + 1 }
    {
        machines_stay_machines();
        steps_stay_good();
        cuts_agree();
        self.core.step()
    }

    /// How the machine stands: [`Outcome::Done`] exactly where no process is live, [`Outcome::Stuck`] exactly where some are and none is
    /// ready, and else [`Outcome::Running`].
    pub fn outcome(&self) -> Outcome
        ensures { (m : Machine) → KernelStands S.stands_for self.now m → result ≡ outcome_of m }
    {
        self.core.outcome()
    }

    /// The number of steps made.
    pub fn steps(&self) -> u64
        ensures { result ≡ steps_of self.now }
    {
        self.core.clock.steps()
    }

    /// The bytes that the last step printed, at most 4096.
    pub fn printed(&self) -> &[u8]
        ensures { result.now ≡ piece_of self.now }
    {
        self.core.printed()
    }

    /// Its processes, descriptors, pipes, plan of regions and console. Each slot is marked exactly where its process is ready, and a region is
    /// taken exactly where a live process has it.
    pub fn world(&self) -> &World
        ensures is { result.now ≡ self.now.core.world }
        ensures kept { IsKept self.now.core }
    {
        &self.core.world
    }

    /// Its space, which stands for the machine's stores and frame account.
    pub fn space(&self) -> &S
        ensures { result.now ≡ self.now.core.space }
    {
        &self.core.space
    }

    /// Its space, with all that it stands for.
    pub fn into_space(self) -> S
        ensures { result ≡ self.core.space }
    {
        let Kernel { core } = self;
        core.into_space()
    }
}
