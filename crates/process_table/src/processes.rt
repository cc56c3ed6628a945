// The process table.
ghost use Rattle.std.specs.Prelude.{◌≡◌, ◌<◌, ◌≤◌, ◌-◌, true, false, Option, IfSome, Some, None, length, map, slice_set, slice_index_or, replicate, IfOk};
ghost use Rattle.std.specs.List.{list_any, find, range_with_len};
ghost use Rattle.std.specs.Option.{option_map};
ghost use Rattle.std.specs.Borrow.{sem};
ghost use Rattle.machine.specs.declared.process.Process.{Process};
ghost use Rattle.machine.specs.Processes.{process_at, lives, is_live, is_child, Ended, ended_child, with_lower, first_ended, orphaned, without_id, left_of, lowest_free_slot};
ghost use Rattle.process_table.specs.Tables.{told};

use cap_format::Cap;
use machine::{Process, State, places_are_lowest};
use machine_types::{MOST_SLOTS, NoMemory, Regs};
use std::alloc::Global;
use std::marker::Model;

/// A process or nothing for each of some slots, from 1 to [`MOST_SLOTS`], and a mark for each slot that says whether its process is
/// ready. Slots are numbered from 0 on. A mark is set by [`mark`](Processes::mark) alone.
#[derive(Drop)]
pub struct Processes {
    slots: Vec<Option<Process>>,
    marks: Vec<bool>,
}

impl Model for Processes {
    ghost use Rattle.std.specs.Prelude.{◌≡◌, ◌≤◌, length};
    ghost use Rattle.machine_types.specs.declared.TheConstants.{MOST_SLOTS};
    ghost use Rattle.process_table.specs.Tables.{Table};

    ghost Value = { Table };

    ghost view = { λ t. record { processes = t.slots.items; marks = t.marks.items } };

    ghost invariant = { λ t. (length t.marks.items ≡ length t.slots.items) × (length t.slots.items ≤ MOST_SLOTS) };
}

impl Processes {
    ghost use Rattle.process_table.specs.Lending.{LendsProcess};
    ghost use Rattle.process_table.specs.Tables.{empty, marked, with_slot, added, finished, reaped, next_marked};

    /// A table of so many slots, from 1 to [`MOST_SLOTS`]: none has a process, and none is marked. It takes all its memory at once, and
    /// [`NoMemory`] comes where that is not to be had. No later call takes any.
    pub fn new(alloc: Global, slots: u32) -> Result<Processes, NoMemory>
        requires some { 1 ≤ slots }
        requires most { slots ≤ MOST_SLOTS }
        ensures { IfOk result (λ table. table ≡ empty slots) }
    {
        let marks = vec![in alloc; false; slots as usize].map_err(|_| NoMemory)?;
        let places = free_slots(alloc, slots as usize)?;
        Ok(Processes {
            slots: places,
            marks,
        })
    }

    /// How many slots it has.
    pub fn slots(&self) -> u32
        ensures { result ≡ length self.now.processes }
    {
        self.slots.len() as u32
    }

    /// Whether a slot's process is marked as ready. A slot past the last one isn't.
    pub fn is_marked(&self, slot: u32) -> bool
        ensures { result ≡ marked self.now slot }
    {
        match self.marks.get(slot as usize) {
            Some(mark) => *mark,
            None => false,
        }
    }

    /// Marks a slot, one of the table's, as ready or not.
    pub fn mark(&mut self, slot: u32, ready: bool)
        requires { slot < length self.old.processes }
        ensures { self.new ≡ record self.old { marks = slice_set self.old.marks slot ready } }
    {
        self.marks[slot as usize] = ready;
    }

    /// Puts a process at a slot of the table that has none.
    pub fn place(&mut self, slot: u32, process: Process)
        requires slot { slot < length self.old.processes }
        requires none { process_at self.old.processes slot ≡ None }
        ensures { self.new ≡ with_slot self.old slot (Some process) }
    {
        self.slots[slot as usize] = Some(process);
    }

    /// Puts a process at the lowest free slot, and answers that slot. None exactly where each slot has a process; nothing changes then.
    pub fn add(&mut self, process: Process) -> Option<u32>
        ensures slot { result ≡ lowest_free_slot self.old.processes }
        ensures is { self.new ≡ added self.old process (lowest_free_slot self.old.processes) }
    {
        let slot = self.lowest_free()?;
        self.slots[slot as usize] = Some(process);
        Some(slot)
    }

    /// The lowest free slot. None exactly where each slot has a process.
    pub fn lowest_free(&self) -> Option<u32>
        ensures is { result ≡ lowest_free_slot self.now.processes }
        ensures within { IfSome result (λ slot. slot < length self.now.processes) }
    {
        places_are_lowest();
        for slot in 0..self.slots.len() {
            if self.slots[slot].is_none() {
                return Some(slot as u32);
            }
        }
        None
    }

    /// The process of a slot. None exactly where the slot has none, or is past the last one.
    pub fn get(&self, slot: u32) -> Option<&Process>
        ensures { option_map (λ p. p.now) result ≡ process_at self.now.processes slot }
    {
        match self.slots.get(slot as usize) {
            Some(Some(process)) => Some(process),
            _ => None,
        }
    }

    /// The process of a slot, to be changed. None exactly where the slot has none, or is past the last one.
    pub fn get_mut(&mut self, slot: u32) -> Option<&mut Process>
        ensures* writes_back { sem 𝓛 (LendsProcess self.entry slot result) }
        ensures process { option_map (λ p. p.now) result ≡ process_at self.old.processes slot }
    {
        match self.slots.get_mut(slot as usize) {
            Some(Some(process)) => Some(process),
            _ => None,
        }
    }

    /// Whether a slot has a live process: one that is no Zombie.
    pub fn is_live(&self, slot: u32) -> bool
        ensures { result ≡ lives (process_at self.now.processes slot) }
    {
        match self.get(slot) {
            Some(process) => is_live(process.state),
            None => false,
        }
    }

    /// The process of a slot, which is a live one, ends with this status: its live children have no parent from then on, its
    /// Zombie children are removed, and its slot is free where it has no parent, and else has a Zombie. The marks stay.
    pub fn finish(&mut self, slot: u32, status: u32)
        requires { lives (process_at self.old.processes slot) ≡ true }
        ensures { self.new ≡ finished self.old slot status }
    {
        let place = slot as usize;
        let id = id_of(&self.slots[place]);
        let left = left_of(&self.slots[place], status);
        self.orphan_all(id);
        self.slots[place] = left;
    }

    // the children of the process with this id are orphans
    fn orphan_all(&mut self, id: u64)
        ensures { self.new ≡ record self.old { processes = map (orphaned id) self.old.processes } }
    {
        let count = self.slots.len();
        for i in 0..count {
            orphan(&mut self.slots[i], id);
        }
    }

    /// Removes the Zombie child of lowest id of the process with this id, and answers its id and its status. None exactly where there
    /// is none; nothing changes then.
    pub fn reap(&mut self, parent: u64) -> Option<(u64, u32)>
        ensures child { result ≡ told (first_ended parent self.old.processes) }
        ensures is { self.new ≡ reaped self.old (first_ended parent self.old.processes) }
    {
        let child = self.first_ended(parent)?;
        self.remove_all(child.0);
        Some(child)
    }

    /// Id and status of the Zombie child of lowest id of the process with this id. None exactly where there is none.
    pub fn first_ended(&self, parent: u64) -> Option<(u64, u32)>
        ensures { result ≡ told (first_ended parent self.now.processes) }
    {
        let count = self.slots.len();
        let mut least = None;
        for done in 0..count {
            let slot = &self.slots[count - 1 - done];
            least = with_lower(ended_child(slot, parent), least);
        }
        least
    }

    // each process of this id is removed
    fn remove_all(&mut self, id: u64)
        ensures { self.new ≡ record self.old { processes = map (without_id id) self.old.processes } }
    {
        let count = self.slots.len();
        for i in 0..count {
            remove(&mut self.slots[i], id);
        }
    }

    /// The first slot that is marked as ready, from the one after the last one upwards, then from 0, up to the last one itself. None exactly
    /// where none is marked.
    pub fn next_ready(&self, last: u32) -> Option<u32>
        requires { last < length self.now.processes }
        ensures { result ≡ next_marked self.now last }
    {
        let after = last as usize + 1;
        match first_marked(&self.marks, after, self.marks.len()) {
            Some(slot) => Some(slot),
            None => first_marked(&self.marks, 0, after),
        }
    }

    /// Whether there is a child of the process with this id, live or Zombie.
    pub fn has_child(&self, parent: u64) -> bool
        ensures { result ≡ list_any (is_child parent) self.now.processes }
    {
        self.slots.iter().any(|slot| is_child_of(slot, parent))
    }
}

// so many slots without a process
fn free_slots(alloc: Global, count: usize) -> Result<Vec<Option<Process>>, NoMemory>
    ensures { IfOk result (λ slots. slots.items ≡ replicate count None) }
{
    let mut slots = Vec::with_capacity(alloc, count).map_err(|_| NoMemory)?;
    for _ in 0..count {
        slots.push(None).unwrap();
    }
    Ok(slots)
}

// the first slot from one to another, that one not counted, that is marked
fn first_marked(marks: &[bool], from: usize, to: usize) -> Option<u32>
    requires order { from ≤ to }
    requires within { to ≤ length marks.now }
    requires few { length marks.now ≤ MOST_SLOTS }
    ensures { result ≡ find (λ slot. slice_index_or marks.now slot false) (range_with_len from (to - from)) }
{
    for slot in from..to {
        if marks[slot] {
            return Some(slot as u32);
        }
    }
    None
}

// whether a slot has a child of the process with this id
fn is_child_of(slot: &Option<Process>, parent: u64) -> bool
    ensures { result ≡ is_child parent slot.now }
{
    match slot {
        None => false,
        Some(p) => p.parent == parent,
    }
}

// the id of a process that is there
fn id_of(slot: &Option<Process>) -> u64
    requires { lives slot.now ≡ true }
    ensures { (p : Process) → slot.now ≡ Some p → result ≡ p.id }
{
    match slot {
        Some(p) => p.id,
        None => 0,
    }
}

// whether a state is that of a live process
fn is_live(state: State) -> bool
    ensures { result ≡ is_live state }
{
    match state {
        State::Ready | State::InRead | State::InWrite { .. } | State::InWait => true,
        State::Zombie { .. } => false,
    }
}

// what is left of a process that ends
fn left_of(slot: &Option<Process>, status: u32) -> Option<Process>
    requires { lives slot.now ≡ true }
    ensures { (p : Process) → slot.now ≡ Some p → result ≡ left_of p status }
{
    match slot {
        None => None,
        Some(p) => {
            if p.parent == 0 {
                None
            } else {
                Some(Process {
                    id: p.id,
                    parent: p.parent,
                    region: 0,
                    regs: Regs::new(),
                    pcc: Cap::null(),
                    state: State::Zombie { status },
                })
            }
        }
    }
}

// what the end of the process with this id makes of a slot
fn orphan(slot: &mut Option<Process>, id: u64)
    ensures { slot.new ≡ orphaned id slot.old }
{
    let gone = match slot {
        None => false,
        Some(p) => p.parent == id && !is_live(p.state),
    };
    if gone {
        *slot = None;
        return;
    }
    if let Some(p) = slot {
        if p.parent == id {
            p.parent = 0;
        }
    }
}

// a slot without the process of this id
fn remove(slot: &mut Option<Process>, id: u64)
    ensures { slot.new ≡ without_id id slot.old }
{
    let gone = match slot {
        None => false,
        Some(p) => p.id == id,
    };
    if gone {
        *slot = None;
    }
}

// id and status of a slot's process, where it is a Zombie child of the process with this id
fn ended_child(slot: &Option<Process>, parent: u64) -> Option<(u64, u32)>
    ensures { result ≡ told (ended_child parent slot.now) }
{
    match slot {
        None => None,
        Some(p) => match p.state {
            State::Zombie { status } if p.parent == parent => Some((p.id, status)),
            _ => None,
        },
    }
}

// the one of lower id; where both have one id, the second
fn with_lower(child: Option<(u64, u32)>, least: Option<(u64, u32)>) -> Option<(u64, u32)>
    ensures { (a b : Option Ended) → child ≡ told a → least ≡ told b → result ≡ told (with_lower a b) }
{
    match (child, least) {
        (Some(a), Some(b)) => { if a.0 < b.0 { Some(a) } else { Some(b) } }
        (Some(a), None) => Some(a),
        (None, least) => least,
    }
}
