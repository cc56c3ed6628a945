// Laws of the machine. Each function states one, does nothing and takes nothing.
ghost use Rattle.machine.specs.Scanning.{PlacesAreLowest, ChildrenAreFound, PipesAreSeen, NextIsFirst, OutcomesAreExact};
ghost use Rattle.machine.specs.Turning.{ClocksTurn};
ghost use Rattle.machine.specs.CallLaws.{CallsAreRefused, TransfersAreRefused};
ghost use Rattle.machine.specs.CallAnswers.{CallsAreAnswered};
ghost use Rattle.machine.specs.Steady.{CutsAgree};
ghost use Rattle.machine.specs.Shapes.{CallsAreEffects, EffectsStaySteady};
ghost use Rattle.machine.specs.Isolation.{EffectsLeaveOthers, ViewsDecideCalls, RulesAgreeOnCalls, FullLacksAtForks};

use crate::contents_laws::calls_keep_sound;
use cap_format::{code_goes_on, code_moves};
use contents::{
    calls_keep_whole, covers_each_byte, fork_copies_the_store, other_stores_stay,
    own_store_decides, prepared_leaves_no_touch, prepared_touches_are_named, reads_are_seen,
    regions_are_kept, rules_agree, settings_stay, store_decides_looks, writes_are_read,
};
use machine_types::pages_are_moved;

/// The free slot and the free region that a fork takes are the lowest.
pub fn places_are_lowest()
    ensures { PlacesAreLowest }
{}

/// The child that is waited for is the Zombie of lowest id.
pub fn children_are_found()
    ensures { ChildrenAreFound }
{}

/// A pipe is seen with its bytes and the numbers of its ends, and is empty where it has none.
pub fn pipes_are_seen()
    ensures { PipesAreSeen }
{}

/// The slot that is dispatched next is the first ready one after the last.
pub fn next_is_first()
    ensures { NextIsFirst }
{}

/// When a machine is done, stuck or running; each excludes the others.
pub fn outcomes_are_exact()
    ensures { OutcomesAreExact }
{}

/// How the clock goes on after each work, and at a dispatch.
pub fn clocks_turn()
    ensures { ClocksTurn }
{}

/// A refused call changes nothing, and when fork and wait are refused.
pub fn calls_are_refused()
    ensures { CallsAreRefused }
{}

/// When a read or a write is refused.
pub fn transfers_are_refused()
    ensures { TransfersAreRefused }
{}

/// What fork, wait, read, write and exit answer and do.
pub fn calls_are_answered()
    ensures { CallsAreAnswered }
{
    calls_keep_whole();
    other_stores_stay();
    covers_each_byte();
    store_decides_looks();
    reads_are_seen();
    writes_are_read();
}

/// The cut of a sound machine by which steps keep it says the same as its seven parts and its shape.
pub fn cuts_agree()
    ensures { CutsAgree }
{}

/// Each call's effect has one of four shapes.
pub fn calls_are_effects()
    ensures { CallsAreEffects }
{
    calls_keep_sound();
    settings_stay();
    other_stores_stay();
    regions_are_kept();
    store_decides_looks();
    fork_copies_the_store();
    covers_each_byte();
    prepared_leaves_no_touch();
    code_goes_on();
    code_moves();
    pages_are_moved();
    places_are_lowest();
    children_are_found();
}

/// An effect of one of these shapes keeps all that makes a machine sound, but for its clock.
pub fn effects_stay_steady()
    ensures { EffectsStaySteady }
{}

/// An effect of one of these shapes leaves every other live process as it was.
pub fn effects_leave_others()
    ensures { EffectsLeaveOthers }
{}

/// A call depends on its view alone.
pub fn views_decide_calls()
    ensures { ViewsDecideCalls }
{
    own_store_decides();
    store_decides_looks();
}

/// The copy rules agree on a call, where none lacks a frame.
pub fn rules_agree_on_calls()
    ensures { RulesAgreeOnCalls }
{
    rules_agree();
    store_decides_looks();
}

/// Under whole copies only a fork lacks a frame.
pub fn full_lacks_at_forks()
    ensures { FullLacksAtForks }
{
    fork_copies_the_store();
    prepared_touches_are_named();
}
