// Kernels that are booted on small guests, and what is seen of each of their steps.
use asm_image::assemble;
use asm_text::read_source;
use elf_loader::read_image;
use full_space::FullSpace;
use kernel_loop::{Kernel, StepReport};
use machine::State;
use machine_types::{Config, MOST_STEPS, Outcome, Rule};
use run_texts::read_schedule;
use std::alloc::Global;
use std::test::Fail;
use stores::Board;

// Each machine has four slots, four regions and 64 frames.
const CONFIG: Config = Config {
    frames: 64,
    regions: 4,
    slots: 4,
    steps: 1000,
    rule: Rule::Full,
};

/// What was seen of a step: its report, and the kernel after it.
#[derive(Drop)]
pub struct Seen {
    /// What the step told.
    pub report: StepReport,
    /// The bytes that it printed.
    pub piece: Vec<u8>,
    /// How many steps were made, this one among them.
    pub steps: u64,
    /// How the machine stands.
    pub outcome: Outcome,
    /// The state of the process that worked, and the address of its PCC. None where its slot is free.
    pub process: Option<(State, u64)>,
}

// The file of a source.
fn assembled(alloc: Global, source: &str) -> Result<Vec<u8>, Fail> {
    let text = source.as_bytes();
    let Ok(listing) = read_source(alloc, text) else {
        return Err(Fail::from("no source"));
    };
    match assemble(alloc, text, &listing) {
        Ok(file) => Ok(file),
        Err(_) => Err(Fail::from("not assembled")),
    }
}

// A kernel on the guest of this source, with a schedule, and without input.
fn boot(alloc: Global, source: &str, schedule: &str) -> Result<Kernel<FullSpace>, Fail> {
    let file = assembled(alloc, source)?;
    let Ok(image) = read_image(alloc, &file) else {
        return Err(Fail::from("no image"));
    };
    let Ok(schedule) = read_schedule(alloc, schedule.as_bytes()) else {
        return Err(Fail::from("no schedule"));
    };
    let space = FullSpace::new(Board::new(alloc, CONFIG.frames)?);
    let input = Vec::new(alloc);
    match Kernel::boot(alloc, &CONFIG, &image, &file, input, schedule, space) {
        Ok(kernel) => Ok(kernel),
        Err(_) => Err(Fail::from("not booted")),
    }
}

// Makes a step, if the machine runs.
fn step(kernel: &mut Kernel<FullSpace>) -> Option<StepReport> {
    match kernel.outcome() {
        Outcome::Running if kernel.steps() < MOST_STEPS => Some(kernel.step()),
        _ => None,
    }
}

// What is seen of the step that was made last and told this.
fn seen_of(alloc: Global, kernel: &Kernel<FullSpace>, report: StepReport) -> Result<Seen, Fail> {
    let mut piece = Vec::new(alloc);
    piece.extend_from_slice(kernel.printed())?;
    let process = match kernel.world().processes.get(report.slot) {
        Some(process) => Some((process.state, process.pcc.address())),
        None => None,
    };
    Ok(Seen {
        report,
        piece,
        steps: kernel.steps(),
        outcome: kernel.outcome(),
        process,
    })
}

// Makes steps while the machine runs, and at most so many.
fn make_steps(
    alloc: Global,
    kernel: &mut Kernel<FullSpace>,
    most: usize,
) -> Result<Vec<Seen>, Fail> {
    let mut all = Vec::new(alloc);
    for _ in 0..most {
        let Some(report) = step(kernel) else {
            return Ok(all);
        };
        all.push(seen_of(alloc, kernel, report)?)?;
    }
    Ok(all)
}

/// Boots a kernel on the guest of this source, with a schedule, and makes steps while the machine runs, and at most so many.
pub fn run(alloc: Global, source: &str, schedule: &str, most: usize) -> Result<Vec<Seen>, Fail> {
    let mut kernel = boot(alloc, source, schedule)?;
    let all = make_steps(alloc, &mut kernel, most);
    let _space = kernel.into_space();
    all
}
