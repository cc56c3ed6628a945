// The descriptors of each slot.
ghost use Rattle.std.specs.Prelude.{◌≡◌, ◌<◌, map, length, slice_set, replicate, IfOk};
ghost use Rattle.machine.specs.Numbers.{descriptor_count};
ghost use Rattle.pipe_files.specs.Counts.{parts};
ghost use Rattle.pipe_files.specs.Tables.{unused, named_by, entries_at, entry_at, with_entry, AreKept};

use crate::pipes::{Pipe, release, retain};
use machine::{DESCRIPTORS, Target};
use machine_types::NoMemory;
use slab::Slab;
use std::alloc::Global;

/// A descriptor in use: the key of its description.
#[derive(Clone, Copy)]
pub(crate) struct Descriptor {
    pub(crate) description: usize,
}

// the descriptors of a slot
pub(crate) type Table = [Option<Descriptor>; DESCRIPTORS];

// none of them in use
pub(crate) const NO_DESCRIPTORS: Table = [None; DESCRIPTORS];

// so many tables with no descriptor in use
pub(crate) fn free_tables(alloc: Global, count: usize) -> Result<Vec<Table>, NoMemory>
    ensures { IfOk result (λ tables. tables.items ≡ replicate count unused) }
{
    let mut tables = Vec::with_capacity(alloc, count).map_err(|_| NoMemory)?;
    for _ in 0..count {
        tables.push(NO_DESCRIPTORS).unwrap();
    }
    Ok(tables)
}

// what a descriptor names
fn named_by(descriptions: &Slab<Target>, entry: Option<Descriptor>) -> Option<Target>
    ensures { result ≡ named_by descriptions.now entry }
{
    descriptions.get(entry?.description).copied()
}

// an entry of a slot's table
fn entry_at(tables: &Vec<Table>, slot: usize, fd: usize) -> Option<Descriptor>
    requires slot { slot < length tables.now.items }
    requires fd { fd < descriptor_count }
    ensures { result ≡ entry_at (entries_at tables.now.items slot) fd }
{
    tables[slot][fd]
}

// Writes all entries of a slot's table.
pub(crate) fn put_table(
    tables: &mut Vec<Table>,
    descriptions: &Slab<Target>,
    pipes: &mut Vec<Pipe>,
    slot: usize,
    table: &Table,
)
    requires slot { slot < length tables.old.items }
    requires kept { AreKept descriptions.now tables.old.items pipes.old.items }
    requires whole { length table.now ≡ descriptor_count }
    ensures is { tables.new.items ≡ slice_set tables.old.items slot table.now }
    ensures kept { AreKept descriptions.now tables.new.items pipes.new.items }
    ensures rest { map parts pipes.new.items ≡ map parts pipes.old.items }
{
    for fd in 0..DESCRIPTORS {
        put_entry(tables, descriptions, pipes, slot, fd, table[fd]);
    }
}

// Writes an entry of a slot's table. What it named before is named once less, and what it names now once more.
fn put_entry(
    tables: &mut Vec<Table>,
    descriptions: &Slab<Target>,
    pipes: &mut Vec<Pipe>,
    slot: usize,
    fd: usize,
    entry: Option<Descriptor>,
)
    requires slot { slot < length tables.old.items }
    requires fd { fd < descriptor_count }
    requires kept { AreKept descriptions.now tables.old.items pipes.old.items }
    ensures is { tables.new.items ≡ with_entry tables.old.items slot fd entry }
    ensures kept { AreKept descriptions.now tables.new.items pipes.new.items }
    ensures rest { map parts pipes.new.items ≡ map parts pipes.old.items }
{
    retain(pipes, named_by(descriptions, entry));
    let old = entry_at(tables, slot, fd);
    release(pipes, named_by(descriptions, old));
    tables[slot][fd] = entry;
}
