// Small machines, worked out. Each function states what becomes of one, does nothing and takes nothing.
ghost use Rattle.machine.specs.Examples.{AForkIsRefusedOrMade, AnEndLeavesOrphans, AWaitIsAnswered, ALongWriteGoesInTransfers, AReadTakesInput, TransfersAreTested, AKillMovesNothing, TheClockTurns, ReadinessIsExact};

/// A fork is refused for each cause, in order, or makes a child.
pub fn a_fork_is_refused_or_made()
    ensures { AForkIsRefusedOrMade }
{}

/// The end of a process with live and Zombie children.
pub fn an_end_leaves_orphans()
    ensures { AnEndLeavesOrphans }
{}

/// A wait that waits, one that is answered, and one that is refused.
pub fn a_wait_is_answered()
    ensures { AWaitIsAnswered }
{}

/// A write of 5000 bytes.
pub fn a_long_write_goes_in_transfers()
    ensures { ALongWriteGoesInTransfers }
{}

/// Reads of the console.
pub fn a_read_takes_input()
    ensures { AReadTakesInput }
{}

/// Refusals of reads and writes in their order, and other numbers.
pub fn transfers_are_tested()
    ensures { TransfersAreTested }
{}

/// A process that is killed inside a transfer.
pub fn a_kill_moves_nothing()
    ensures { AKillMovesNothing }
{}

/// Which slot comes next, and how the clock goes on.
pub fn the_clock_turns()
    ensures { TheClockTurns }
{}

/// Who is ready among those who wait for a pipe.
pub fn readiness_is_exact()
    ensures { ReadinessIsExact }
{}
