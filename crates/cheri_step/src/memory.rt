// Loads and stores: their tests, and the access.
ghost use Rattle.std.specs.Prelude.{◌≡◌, ◌<◌, ◌≤◌, ◌%◌, IsTrue};
ghost use Rattle.cap_format.specs.Region.{region_start, IsInside};
ghost use Rattle.machine_types.specs.Held.{MayHold};
ghost use Rattle.contents.specs.Content.{Content};
ghost use Rattle.contents.specs.Touching.{notes_of_load};
ghost use Rattle.stores.specs.Known.{StandsFor, Any, FramesStayBut};
ghost use Rattle.cheri_step.specs.Tests.{load_size, store_size, size_of, permissions_for, tests_of_access, passed};
ghost use Rattle.cheri_step.specs.Access.{place_in, as_integer, as_stored, load_at, store_at, accessed, access_cause, caused, access_of};
ghost use Rattle.cheri_step.specs.Held.{MayStore, IsPlaceFor, notes_of_access};

use cap_format::{
    Cap, FIRST_REGION, GRANULE_BYTES, LOAD, MOST_REGIONS, REGION_BYTES, STORE, STORE_CAPABILITY,
};
use contents::Refusal;
use machine_types::{Cause, Note};
use riscv_decode::{LoadOp, StoreOp};
use stores::Stores;

/// What an instruction asks of memory.
#[derive(Clone, Copy, Debug, PartialEq, Eq)]
pub enum MemoryOp {
    /// A load of a number, or of a capability.
    Load(LoadOp),
    /// A store of a capability, or of the low bytes of its integer.
    Store(StoreOp, Cap),
}

impl MemoryOp {
    /// The bytes that are loaded or stored: 1, 2, 4, 8 or 16.
    pub fn size(self) -> u64
        ensures { result ≡ size_of self }
    {
        match self {
            MemoryOp::Load(op) => load_size(op) as u64,
            MemoryOp::Store(op, _) => store_size(op) as u64,
        }
    }

    // The permissions that the authority has to have.
    fn permissions(self) -> u16
        ensures { result ≡ permissions_for self }
    {
        match self {
            MemoryOp::Load(_) => LOAD,
            MemoryOp::Store(StoreOp::Csc, value) if value.tag => STORE | STORE_CAPABILITY,
            MemoryOp::Store(_, _) => STORE,
        }
    }
}

/// A load or a store by an authority, at an address: the tests, in their order, and then the access. It gives what was loaded,
/// which is null after a store, and the touch that the access made; or the cause by which the process is killed.
///
/// The authority and the value are inside the region where they are tagged.
pub fn access<S: Stores>(
    space: &mut S,
    region: u32,
    authority: Cap,
    address: u64,
    op: MemoryOp,
) -> Result<(Cap, Note), Cause>
    requires region { region < MOST_REGIONS }
    requires authority { IsTrue authority.tag → IsInside authority.bits region }
    requires value { MayStore region op }
    requires some { ∥ StandsFor S.stands_for space.old Any ∥₁ }
    ensures answer { (c : Content) → S.stands_for space.old c → result ≡ (access_of c region authority address op).answer }
    ensures after { (c : Content) → S.stands_for space.old c → S.stands_for space.new (access_of c region authority address op).after }
    ensures frames { FramesStayBut (S.translation_at space.old) (S.translation_at space.new) region (notes_of_access result) }
{
    match test(authority, address, op) {
        Ok(()) => by_cause(perform(space, region, address, op)),
        Err(cause) => Err(cause),
    }
}

// The tests before those of the page.
fn test(authority: Cap, address: u64, op: MemoryOp) -> Result<(), Cause>
    ensures { result ≡ passed (tests_of_access authority address op) }
{
    if !authority.tag {
        return Err(Cause::Tag);
    }
    if authority.kind() != 0 {
        return Err(Cause::Sealed);
    }
    if !authority.allows(op.permissions()) {
        return Err(Cause::Permission);
    }
    if !authority.holds(address, op.size()) {
        return Err(Cause::Bounds);
    }
    if address % op.size() != 0 {
        return Err(Cause::Misaligned);
    }
    Ok(())
}

// The access itself, at an address of the region that is a multiple of the size.
fn perform<S: Stores>(
    space: &mut S,
    region: u32,
    address: u64,
    op: MemoryOp,
) -> Result<(Cap, Note), Refusal>
    requires region { region < MOST_REGIONS }
    requires address { IsPlaceFor region address op }
    requires value { MayStore region op }
    requires some { ∥ StandsFor S.stands_for space.old Any ∥₁ }
    ensures answer { (c : Content) → S.stands_for space.old c → result ≡ (accessed c region address op).answer }
    ensures after { (c : Content) → S.stands_for space.old c → S.stands_for space.new (accessed c region address op).after }
    ensures frames { FramesStayBut (S.translation_at space.old) (S.translation_at space.new) region (notes_of_load result) }
{
    let at = place_in(region, address);
    match op {
        MemoryOp::Load(op) => load_at(space, region, at, op),
        MemoryOp::Store(op, value) => store_at(space, region, at, op, value),
    }
}

// A load at a place of the region that is a multiple of the size.
fn load_at<S: Stores>(
    space: &mut S,
    region: u32,
    at: u64,
    op: LoadOp,
) -> Result<(Cap, Note), Refusal>
    requires region { region < MOST_REGIONS }
    requires within { at < REGION_BYTES }
    requires aligned { at % load_size op ≡ 0 }
    requires some { ∥ StandsFor S.stands_for space.old Any ∥₁ }
    ensures answer { (c : Content) → S.stands_for space.old c → result ≡ (load_at c region at op).answer }
    ensures after { (c : Content) → S.stands_for space.old c → S.stands_for space.new (load_at c region at op).after }
    ensures frames { FramesStayBut (S.translation_at space.old) (S.translation_at space.new) region (notes_of_load result) }
{
    match op {
        LoadOp::Clc => space.read_cap(region, at),
        _ => as_integer(space.read(region, at, load_size(op))),
    }
}

// A store at a place of the region that is a multiple of the size.
fn store_at<S: Stores>(
    space: &mut S,
    region: u32,
    at: u64,
    op: StoreOp,
    value: Cap,
) -> Result<(Cap, Note), Refusal>
    requires region { region < MOST_REGIONS }
    requires within { at < REGION_BYTES }
    requires aligned { at % store_size op ≡ 0 }
    requires held { MayHold region value }
    requires some { ∥ StandsFor S.stands_for space.old Any ∥₁ }
    ensures answer { (c : Content) → S.stands_for space.old c → result ≡ (store_at c region at op value).answer }
    ensures after { (c : Content) → S.stands_for space.old c → S.stands_for space.new (store_at c region at op value).after }
    ensures frames { FramesStayBut (S.translation_at space.old) (S.translation_at space.new) region (notes_of_load result) }
{
    match op {
        StoreOp::Csc => as_stored(space.write_cap(region, at, value)),
        _ => as_stored(space.write(region, at, store_size(op), value.address())),
    }
}

// The answer to a load of a number.
fn as_integer(answer: Result<(u64, Note), Refusal>) -> Result<(Cap, Note), Refusal>
    ensures { result ≡ as_integer answer }
{
    let (value, note) = answer?;
    Ok((Cap::from_int(value), note))
}

// The answer to a store, which loads nothing.
fn as_stored(answer: Result<Note, Refusal>) -> Result<(Cap, Note), Refusal>
    ensures { result ≡ as_stored answer }
{
    let note = answer?;
    Ok((Cap::null(), note))
}

// The answer to a load or a store, with the cause of its refusal.
fn by_cause(answer: Result<(Cap, Note), Refusal>) -> Result<(Cap, Note), Cause>
    ensures { result ≡ caused access_cause answer }
{
    match answer {
        Ok(accessed) => Ok(accessed),
        Err(refusal) => Err(access_cause(refusal)),
    }
}

/// The place of an address in a region: how many bytes after its start it lies.
pub fn place_in(region: u32, address: u64) -> u64
    requires region { region < MOST_REGIONS }
    requires address { region_start region ≤ address }
    ensures { result ≡ place_in region address }
{
    address - FIRST_REGION - u64::from(region) * REGION_BYTES
}

// The bytes of a load.
fn load_size(op: LoadOp) -> usize
    ensures { result ≡ load_size op }
{
    match op {
        LoadOp::Lb | LoadOp::Lbu => 1,
        LoadOp::Lh | LoadOp::Lhu => 2,
        LoadOp::Lw | LoadOp::Lwu => 4,
        LoadOp::Ld => 8,
        LoadOp::Clc => GRANULE_BYTES,
    }
}

// The bytes of a store.
fn store_size(op: StoreOp) -> usize
    ensures { result ≡ store_size op }
{
    match op {
        StoreOp::Sb => 1,
        StoreOp::Sh => 2,
        StoreOp::Sw => 4,
        StoreOp::Sd => 8,
        StoreOp::Csc => GRANULE_BYTES,
    }
}

// The cause of a load or a store that is refused.
fn access_cause(refusal: Refusal) -> Cause
    ensures { result ≡ access_cause refusal }
{
    match refusal {
        Refusal::NoPage => Cause::NoPage,
        Refusal::NoRight => Cause::NoRight,
        Refusal::NoFrame => Cause::NoFrame,
    }
}
