// Laws of steps and runs. Each function states one, does nothing and takes nothing.
ghost use Rattle.machine_steps.specs.Laws.{WorksAreEffects, StepsStayGood, CapabilitiesStayInside, AccountsStayExact, IdsStayExact, NumbersStayInRange, FullStaysAlone, ClocksStayRight, CallsStayUnderway, MachinesStayMachines, RunsAreSound, DispatchesAreNext, OthersStayUntouched, OwnViewDecides, RulesAgreeOnSteps, FullNeverLacks, RunsEnd};

use cap_format::images_are_sound;
use cheri_step::{
    effects_keep_running, faults_change_nothing, frames_are_lacked, own_process_decides,
    rules_agree_on_effects,
};
use contents::{calls_keep_whole, own_store_decides, rules_agree};
use elf_loader::{starts_are_exact, starts_may_run};
use machine::{
    calls_are_effects, calls_keep_sound, cuts_agree, effects_leave_others, effects_stay_steady,
    full_lacks_at_forks, next_is_first, outcomes_are_exact, rules_agree_on_calls,
    views_decide_calls,
};
use machine_types::pages_are_moved;

/// The work of a process has an effect of one of the four shapes, from which soundness and isolation follow.
pub fn works_are_effects()
    ensures { WorksAreEffects }
{
    calls_are_effects();
    calls_keep_sound();
    cheri_step::effects_leave_others();
    effects_keep_running();
    faults_change_nothing();
}

/// Each step keeps all that makes a machine sound, in the cut by which it is proved.
pub fn steps_stay_good()
    ensures { StepsStayGood }
{
    works_are_effects();
    effects_stay_steady();
    next_is_first();
    outcomes_are_exact();
    cuts_agree();
}

/// Each step keeps the tagged capabilities of every process inside its region, and PCC fit to fetch by.
pub fn capabilities_stay_inside()
    ensures { CapabilitiesStayInside }
{
    steps_stay_good();
    cuts_agree();
}

/// Each step keeps the account exact: a class for each page, and pages of a class that are moves of each other.
pub fn accounts_stay_exact()
    ensures { AccountsStayExact }
{
    steps_stay_good();
    cuts_agree();
}

/// Each step keeps ids, regions and parents exact.
pub fn ids_stay_exact()
    ensures { IdsStayExact }
{
    steps_stay_good();
    cuts_agree();
}

/// Each step keeps regions and homes in range, a parent for each Zombie, and at most as many forks as steps.
pub fn numbers_stay_in_range()
    ensures { NumbersStayInRange }
{
    steps_stay_good();
    cuts_agree();
}

/// Under whole copies each step keeps every page alone and at home.
pub fn full_stays_alone()
    ensures { FullStaysAlone }
{
    steps_stay_good();
    cuts_agree();
}

/// Each step keeps the clock right: the current slot is ready and was dispatched last, and quanta are in range.
pub fn clocks_stay_right()
    ensures { ClocksStayRight }
{
    steps_stay_good();
    cuts_agree();
}

/// Each step keeps what is said of calls that are underway.
pub fn calls_stay_underway()
    ensures { CallsStayUnderway }
{
    steps_stay_good();
    cuts_agree();
}

/// What a step leaves is a machine.
pub fn machines_stay_machines()
    ensures { MachinesStayMachines }
{
    steps_stay_good();
    cuts_agree();
}

/// The starting machine of an image is sound, and so is each machine of its run.
pub fn runs_are_sound()
    ensures { RunsAreSound }
{
    works_are_effects();
    effects_stay_steady();
    next_is_first();
    outcomes_are_exact();
    cuts_agree();
    images_are_sound();
    pages_are_moved();
    calls_keep_whole();
    starts_are_exact();
    starts_may_run();
}

/// A step works at the current slot, or at the ready one that comes next.
pub fn dispatches_are_next()
    ensures { DispatchesAreNext }
{
    works_are_effects();
    effects_stay_steady();
    next_is_first();
    outcomes_are_exact();
    cuts_agree();
}

/// A step leaves every other live process as it was, but for a parent that ended.
pub fn others_stay_untouched()
    ensures { OthersStayUntouched }
{
    cuts_agree();
    next_is_first();
    outcomes_are_exact();
    works_are_effects();
    effects_leave_others();
}

/// What a step makes of its own process is a function of what that process may see.
pub fn own_view_decides()
    ensures { OwnViewDecides }
{
    cuts_agree();
    next_is_first();
    outcomes_are_exact();
    works_are_effects();
    own_store_decides();
    views_decide_calls();
    own_process_decides();
}

/// The copy rules agree by each step in which none lacks a frame.
pub fn rules_agree_on_steps()
    ensures { RulesAgreeOnSteps }
{
    rules_agree();
    rules_agree_on_calls();
    rules_agree_on_effects();
}

/// Under whole copies only a fork lacks a frame.
pub fn full_never_lacks()
    ensures { FullNeverLacks }
{
    full_lacks_at_forks();
    frames_are_lacked();
    faults_change_nothing();
}

/// Each run has one end.
pub fn runs_end()
    ensures { RunsEnd }
{
    works_are_effects();
    effects_stay_steady();
    next_is_first();
    outcomes_are_exact();
    cuts_agree();
}
