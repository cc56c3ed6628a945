// Laws of the effect of an instruction. Each function states one, does nothing and takes nothing.
ghost use Rattle.cheri_step.specs.Laws.{EffectsLeaveOthers, OwnProcessDecides, EffectsKeepRunning, FaultsChangeNothing, AccessesAreAuthorized, FirstFailuresDecide, ReportsAreTrue, DerivationsNarrow, FetchesAreExact, FramesAreLacked, RulesAgreeOnEffects};

use riscv_decode::words_go_round;

/// An instruction leaves the stores of all other regions. It gives or takes no page and changes no page's rights.
pub fn effects_leave_others()
    ensures { EffectsLeaveOthers }
{}

/// An instruction depends on no other process.
pub fn own_process_decides()
    ensures { OwnProcessDecides }
{}

/// A process that may run may run after an instruction: it has nothing but what it may have, and the content stays whole.
pub fn effects_keep_running()
    ensures { EffectsKeepRunning }
{}

/// A fault or a call leaves registers, PCC and every store, and a call is the word ecall.
pub fn faults_change_nothing()
    ensures { FaultsChangeNothing }
{
    words_go_round();
}

/// An access is made only by an authority that may, and one that isn't made changes nothing.
pub fn accesses_are_authorized()
    ensures { AccessesAreAuthorized }
{}

/// The cause of tests is that of the first that fails.
pub fn first_failures_decide()
    ensures { FirstFailuresDecide }
{}

/// What is reported of the fetch and of the access is what came about.
pub fn reports_are_true()
    ensures { ReportsAreTrue }
{}

/// What an instruction derives has bounds and permissions among those of its source, and what is sealed stays so.
pub fn derivations_narrow()
    ensures { DerivationsNarrow }
{}

/// Where no word is fetched, and by which cause.
pub fn fetches_are_exact()
    ensures { FetchesAreExact }
{}

/// Where an instruction lacks a frame.
pub fn frames_are_lacked()
    ensures { FramesAreLacked }
{}

/// The copy rules agree on an instruction, where none lacks a frame.
pub fn rules_agree_on_effects()
    ensures { RulesAgreeOnEffects }
{}
