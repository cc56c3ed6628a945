// The world and the space with which a kernel begins.
ghost use Rattle.std.specs.Prelude.{◌≡◌, ◌<◌, ◌≤◌, ◌-◌, IfOk, Ok, None, false, length, replicate};
ghost use Rattle.contents.specs.Content.{nothing};
ghost use Rattle.elf_loader.specs.Loaded.{IsRead};
ghost use Rattle.machine_types.specs.MemoryLaws.{AreBytes};
ghost use Rattle.machine.specs.Processes.{process_at};
ghost use Rattle.machine.specs.Shape.{IsConfig};
ghost use Rattle.machine_steps.specs.Runs.{start};
ghost use Rattle.region_plan.specs.Plan.{is_taken};
ghost use Rattle.kernel_loop.specs.Boots.{IsEmptyWorld, first_with, admitted};
ghost use Rattle.kernel_loop.specs.Stands.{CoreStands, IsKept};

use crate::clock::Clock;
use crate::stepping::Core;
use cap_format::Cap;
use elf_loader::{Image, PROCESS_REGION, StartState, start};
use machine::{Process, State};
use machine_types::{Config, NoMemory, Regs, Schedule};
use pipe_files::Descriptors;
use process_table::Processes;
use region_plan::RegionPlan;
use std::alloc::Global;
use stores::{MOST_TRANSFER, Stores};
use trap_syscalls::World;

// The elements of a slice of bytes are bytes.
pub(crate) fn are_bytes(bytes: &[u8])
    ensures { AreBytes bytes.now }
{
    let _bytes = bytes;
}

// A world without a process, with all the memory that it ever takes.
pub(crate) fn empty_world(alloc: Global, config: &Config, input: Vec<u8>) -> Result<World, NoMemory>
    requires { IsConfig config.now }
    ensures { IfOk result (IsEmptyWorld config.now input.items) }
{
    let processes = Processes::new(alloc, config.slots)?;
    let files = Descriptors::new(alloc, config.slots)?;
    let buffer = vec![in alloc; 0; MOST_TRANSFER].map_err(|_| NoMemory)?;
    Ok(World {
        processes,
        files,
        plan: RegionPlan::new(config.regions),
        forks: 0,
        input,
        taken: 0,
        buffer,
    })
}

// Puts process 1 into slot 0.
fn admit(world: &mut World, regs: Regs, pcc: Cap)
    requires slots { 0 < length world.old.processes.processes }
    requires free { process_at world.old.processes.processes 0 ≡ None }
    requires tables { 0 < length world.old.files.tables }
    requires regions { PROCESS_REGION < length world.old.plan }
    requires region { is_taken world.old.plan PROCESS_REGION ≡ false }
    ensures { world.new ≡ admitted world.old (first_with regs pcc) }
{
    let first = Process {
        id: 1,
        parent: 0,
        region: PROCESS_REGION,
        regs,
        pcc,
        state: State::Ready,
    };
    world.processes.place(0, first);
    world.processes.mark(0, true);
    world.files.console(0);
    world.plan.take(PROCESS_REGION);
}

// The parts of a kernel where the image was started, for which there are frames.
pub(crate) fn first_core<S: Stores>(
    config: Config,
    schedule: Schedule,
    image: &Image,
    bytes: &[u8],
    world: World,
    space: S,
) -> Core<S>
    requires config { IsConfig config }
    requires read { IsRead bytes.now (Ok image.now) }
    requires room { image.now.pages ≤ config.frames }
    requires world { IsEmptyWorld config world.input.items world }
    requires fresh { S.stands_for space (nothing config.rule config.frames) }
    ensures stands { CoreStands S.stands_for result (start (record { config = config; schedule = schedule; file = bytes.now; input = world.input.items })) }
    ensures silent { result.printed ≡ 0 }
    ensures kept { IsKept result }
{
    let mut world = world;
    let mut space = space;
    let Ok(StartState { regs, pcc }) = start(image, bytes, &mut space) else {
        unreachable!()
    };
    admit(&mut world, regs, pcc);
    Core {
        config,
        world,
        space,
        clock: Clock::new(config.slots - 1, schedule),
        printed: 0,
    }
}
