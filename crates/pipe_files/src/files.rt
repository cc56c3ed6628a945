// All descriptors and pipes.
ghost use Rattle.std.specs.Prelude.{◌≡◌, ◌-◌, ◌<◌, ◌≤◌, [], length, slice_index_or, IfOk};
ghost use Rattle.machine.specs.Numbers.{pipe_bytes};
ghost use Rattle.machine.specs.Pipes.{target, table_at, console_table, no_descriptors, inherited, readers_of, writers_of};
ghost use Rattle.pipe_files.specs.Files.{no_files, with_table};

use crate::pipes::{Pipe, make_pipes, sweep};
use crate::tables::{Descriptor, NO_DESCRIPTORS, Table, free_tables, put_table};
use machine::{PIPE_BYTES, PIPES, Target};
use machine_types::{MOST_SLOTS, NoMemory};
use slab::Slab;
use std::alloc::Global;
use std::marker::Model;

// how many descriptions there are: two of the console, and two of each pipe
const DESCRIPTIONS: usize = 2 + 2 * PIPES;

/// The descriptors of so many slots, from 1 to [`MOST_SLOTS`], and [`PIPES`] pipes.
///
/// A slot has [`DESCRIPTORS`](machine::DESCRIPTORS) descriptors, numbered from 0 on. A pipe has at most
/// [`PIPE_BYTES`](machine::PIPE_BYTES) bytes. One that no descriptor names is free, and empty.
#[derive(Drop)]
pub struct Descriptors {
    tables: Vec<Table>,
    // what descriptors name, made once
    descriptions: Slab<Target>,
    // the keys of the console's
    input: usize,
    output: usize,
    pipes: Vec<Pipe>,
}

impl Model for Descriptors {
    ghost use Rattle.pipe_files.specs.Files.{Files};

    ghost Value = { Files };

    ghost use Rattle.pipe_files.specs.Kept.{files_of, IsWhole};

    ghost view = { files_of };

    ghost invariant = { IsWhole };
}

impl Descriptors {
    /// The descriptors of so many slots, from 1 to [`MOST_SLOTS`], none of them in use, and the pipes, each empty. It takes all its memory
    /// at once, and [`NoMemory`] comes where that is not to be had. No later call takes any.
    pub fn new(alloc: Global, slots: u32) -> Result<Descriptors, NoMemory>
        requires some { 1 ≤ slots }
        requires most { slots ≤ MOST_SLOTS }
        ensures { IfOk result (λ files. files ≡ no_files slots) }
    {
        let tables = free_tables(alloc, slots as usize)?;
        let mut descriptions = Slab::with_capacity(alloc, DESCRIPTIONS).map_err(|_| NoMemory)?;
        let input = descriptions.insert_reserved(Target::ConsoleIn);
        let output = descriptions.insert_reserved(Target::ConsoleOut);
        let pipes = make_pipes(alloc, &mut descriptions)?;
        Ok(Descriptors {
            tables,
            descriptions,
            input,
            output,
            pipes,
        })
    }

    /// What a descriptor of a slot names. None exactly where it isn't in use, which one past the last is not.
    pub fn look(&self, slot: u32, fd: u64) -> Option<Target>
        ensures { result ≡ target (table_at self.now.tables slot) fd }
    {
        let table = self.tables.get(slot as usize)?;
        let entry = table.get(fd as usize)?;
        self.descriptions.get((*entry)?.description).copied()
    }

    /// The number of bytes that a pipe, below [`PIPES`], holds.
    pub fn stored(&self, pipe: u32) -> usize
        requires { pipe < PIPES }
        ensures { result ≡ length (slice_index_or self.now.pipes pipe []) }
    {
        self.pipes[pipe as usize].bytes.len()
    }

    /// The free room of a pipe, below [`PIPES`], in bytes.
    pub fn room(&self, pipe: u32) -> usize
        requires { pipe < PIPES }
        ensures { result ≡ pipe_bytes - length (slice_index_or self.now.pipes pipe []) }
    {
        PIPE_BYTES - self.pipes[pipe as usize].bytes.len()
    }

    /// How many descriptors of all slots name the end of a pipe for reading.
    pub fn readers(&self, pipe: u32) -> u32
        requires { pipe < PIPES }
        ensures { result ≡ readers_of self.now.tables pipe }
    {
        self.pipes[pipe as usize].readers
    }

    /// How many descriptors of all slots name the end of a pipe for writing.
    pub fn writers(&self, pipe: u32) -> u32
        requires { pipe < PIPES }
        ensures { result ≡ writers_of self.now.tables pipe }
    {
        self.pipes[pipe as usize].writers
    }

    /// The descriptors of a slot are the console's: 0 its input, 1 its output, and the others not in use. Those that it had are closed.
    pub fn console(&mut self, slot: u32)
        requires { slot < length self.old.tables }
        ensures { self.new ≡ with_table self.old slot console_table }
    {
        let mut table = NO_DESCRIPTORS;
        table[0] = Some(Descriptor {
            description: self.input,
        });
        table[1] = Some(Descriptor {
            description: self.output,
        });
        put_table(
            &mut self.tables,
            &self.descriptions,
            &mut self.pipes,
            slot as usize,
            &table,
        );
        sweep(&mut self.pipes);
    }

    /// The slot of a child gets the descriptors of its parent's: both refer to the same descriptions, after POSIX.1-2024. Those that it had are
    /// closed. A slot that gets its own keeps them.
    pub fn fork(&mut self, from: u32, to: u32)
        requires from { from < length self.old.tables }
        requires to { to < length self.old.tables }
        ensures { self.new ≡ with_table self.old to (inherited (table_at self.old.tables from)) }
    {
        let table = self.tables[from as usize];
        put_table(
            &mut self.tables,
            &self.descriptions,
            &mut self.pipes,
            to as usize,
            &table,
        );
        sweep(&mut self.pipes);
    }

    /// The process of a slot has ended: its descriptors are closed.
    pub fn end(&mut self, slot: u32)
        requires { slot < length self.old.tables }
        ensures { self.new ≡ with_table self.old slot no_descriptors }
    {
        let closed = slot as usize;
        put_table(
            &mut self.tables,
            &self.descriptions,
            &mut self.pipes,
            closed,
            &NO_DESCRIPTORS,
        );
        sweep(&mut self.pipes);
    }
}
