// Pipes, with the descriptors that name their ends counted.
ghost use Rattle.std.specs.Prelude.{◌≡◌, ◌+◌, ◌-◌, ◌*◌, ◌<◌, ◌≤◌, ◌^◌, ℕ, map, length, IfOk};
ghost use Rattle.slab.specs.Slab.{HasRoomFor};
ghost use Rattle.machine.specs.Pipes.{reads, writes};
ghost use Rattle.pipe_files.specs.Counts.{one, readers_at, writers_at, parts, swept_pipe, IsNamed};
ghost use Rattle.pipe_files.specs.Made.{IsMade, AreMade};

use circular_buffer::HeapCircularBuffer;
use machine::{PIPE_BYTES, PIPES, Target};
use machine_types::NoMemory;
use slab::Slab;
use std::alloc::Global;

// A pipe: its bytes, the keys of the descriptions of its ends, and how many descriptors name each end.
#[derive(Drop)]
pub(crate) struct Pipe {
    pub(crate) bytes: HeapCircularBuffer<u8>,
    pub(crate) reading: usize,
    pub(crate) writing: usize,
    pub(crate) readers: u32,
    pub(crate) writers: u32,
}

// all pipes, empty, with the descriptions of their ends
pub(crate) fn make_pipes(
    alloc: Global,
    descriptions: &mut Slab<Target>,
) -> Result<Vec<Pipe>, NoMemory>
    requires { HasRoomFor descriptions.old (2 * PIPES) }
    ensures { IfOk result (λ pipes. AreMade descriptions.old descriptions.new PIPES pipes.items) }
{
    let mut pipes = Vec::with_capacity(alloc, PIPES).map_err(|_| NoMemory)?;
    for number in 0..PIPES {
        let pipe = make_pipe(alloc, descriptions, number as u32)?;
        pipes.push(pipe).unwrap();
    }
    Ok(pipes)
}

// a pipe of this number, empty, with the descriptions of its ends
fn make_pipe(alloc: Global, descriptions: &mut Slab<Target>, number: u32) -> Result<Pipe, NoMemory>
    requires { HasRoomFor descriptions.old 2 }
    ensures { IfOk result (λ pipe. IsMade descriptions.old descriptions.new number pipe) }
{
    let bytes = HeapCircularBuffer::with_capacity(alloc, PIPE_BYTES).map_err(|_| NoMemory)?;
    let reading = descriptions.insert_reserved(Target::PipeRead(number));
    let writing = descriptions.insert_reserved(Target::PipeWrite(number));
    Ok(Pipe {
        bytes,
        reading,
        writing,
        readers: 0,
        writers: 0,
    })
}

impl Pipe {
    // one descriptor more names its end for reading
    fn retain_reading(&mut self)
        requires { self.old.readers < 2 ^ 16 }
        ensures { self.new ≡ record self.old { readers = self.old.readers + 1 } }
    {
        self.readers += 1;
    }

    // one descriptor more names its end for writing
    fn retain_writing(&mut self)
        requires { self.old.writers < 2 ^ 16 }
        ensures { self.new ≡ record self.old { writers = self.old.writers + 1 } }
    {
        self.writers += 1;
    }

    // one descriptor fewer names its end for reading
    fn release_reading(&mut self)
        requires { 1 ≤ self.old.readers }
        ensures { self.new ≡ record self.old { readers = self.old.readers - 1 } }
    {
        self.readers -= 1;
    }

    // one descriptor fewer names its end for writing
    fn release_writing(&mut self)
        requires { 1 ≤ self.old.writers }
        ensures { self.new ≡ record self.old { writers = self.old.writers - 1 } }
    {
        self.writers -= 1;
    }

    // A pipe that no descriptor names is free, and a free pipe is empty.
    fn sweep(&mut self)
        ensures { self.new ≡ swept_pipe self.old }
    {
        if self.readers == 0 && self.writers == 0 {
            self.bytes.clear();
        }
    }
}

// one descriptor more names this
pub(crate) fn retain(pipes: &mut Vec<Pipe>, target: Option<Target>)
    requires named { IsNamed (length pipes.old.items) target }
    requires few_readers { (k : ℕ) → readers_at pipes.old.items k < 2 ^ 16 }
    requires few_writers { (k : ℕ) → writers_at pipes.old.items k < 2 ^ 16 }
    ensures readers { (k : ℕ) → readers_at pipes.new.items k ≡ one (reads k target) + readers_at pipes.old.items k }
    ensures writers { (k : ℕ) → writers_at pipes.new.items k ≡ one (writes k target) + writers_at pipes.old.items k }
    ensures rest { map parts pipes.new.items ≡ map parts pipes.old.items }
{
    match target {
        Some(Target::PipeRead(k)) => pipes[k as usize].retain_reading(),
        Some(Target::PipeWrite(k)) => pipes[k as usize].retain_writing(),
        Some(Target::ConsoleIn | Target::ConsoleOut) | None => {}
    }
}

// one descriptor fewer names this
pub(crate) fn release(pipes: &mut Vec<Pipe>, target: Option<Target>)
    requires named { IsNamed (length pipes.old.items) target }
    requires some_readers { (k : ℕ) → one (reads k target) ≤ readers_at pipes.old.items k }
    requires some_writers { (k : ℕ) → one (writes k target) ≤ writers_at pipes.old.items k }
    ensures readers { (k : ℕ) → readers_at pipes.old.items k ≡ one (reads k target) + readers_at pipes.new.items k }
    ensures writers { (k : ℕ) → writers_at pipes.old.items k ≡ one (writes k target) + writers_at pipes.new.items k }
    ensures rest { map parts pipes.new.items ≡ map parts pipes.old.items }
{
    match target {
        Some(Target::PipeRead(k)) => pipes[k as usize].release_reading(),
        Some(Target::PipeWrite(k)) => pipes[k as usize].release_writing(),
        Some(Target::ConsoleIn | Target::ConsoleOut) | None => {}
    }
}

// all pipes that no descriptor names are empty
pub(crate) fn sweep(pipes: &mut Vec<Pipe>)
    ensures { pipes.new.items ≡ map swept_pipe pipes.old.items }
{
    let count = pipes.len();
    for k in 0..count {
        pipes[k].sweep();
    }
}
