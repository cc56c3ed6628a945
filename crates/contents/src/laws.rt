// Laws of the definitions. Each function states one, does nothing and takes nothing.
ghost use Rattle.contents.specs.Numbers.{ConstantsAreFixed};
ghost use Rattle.contents.specs.Laws.{SettingsStay, RefusalsChangeNothing, UsedStaysWithin, OtherStoresStay, RegionsAreKept, OwnStoreDecides, TouchesAreExact, ForkCopiesTheStore, EndKeepsShared, CoversEachByte, PreparedLeavesNoTouch};

/// No call changes the copy rule or the number of frames.
pub fn settings_stay()
    ensures { SettingsStay }
{}

/// A refused call changes nothing, except that in `prepare` the touch that the refusal names stays.
pub fn refusals_change_nothing()
    ensures { RefusalsChangeNothing }
{}

/// Each call that finds no more frames used than there are leaves no more used.
pub fn used_stays_within()
    ensures { UsedStaysWithin }
{}

/// Each call leaves the stores of the regions that it doesn't name, and one that only touches leaves every store.
pub fn other_stores_stay()
    ensures { OtherStoresStay }
{}

/// Which calls give a region a store or take it away.
pub fn regions_are_kept()
    ensures { RegionsAreKept }
{}

/// Each call on a region depends on no other region's store, and what it leaves to the region neither.
pub fn own_store_decides()
    ensures { OwnStoreDecides }
{}

/// What a touch takes and leaves: a sole member needs no frame, and a frame is wanted only where all are used.
pub fn touches_are_exact()
    ensures { TouchesAreExact }
{}

/// What a fork gives the child, how many frames it uses, and when it is refused.
pub fn fork_copies_the_store()
    ensures { ForkCopiesTheStore }
{}

/// When a region ends, the pages of all others stay in their classes.
pub fn end_keeps_shared()
    ensures { EndKeepsShared }
{}

/// The scan of a transfer's bytes says that each of them is covered.
pub fn covers_each_byte()
    ensures { CoversEachByte }
{}

/// A transfer whose touches were made has none left to make.
pub fn prepared_leaves_no_touch()
    ensures { PreparedLeavesNoTouch }
{}

/// The constants of this crate are the numbers that the definitions fix.
pub fn constants_are_fixed()
    ensures { ConstantsAreFixed }
{}
