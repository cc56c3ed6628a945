// Small machines, worked out step by step. Each function states what becomes of one, does nothing and takes nothing.
ghost use Rattle.machine_steps.specs.Examples.{TwoProcessesTakeTurns, OneProcessCalls, AWriteGoesOn, TouchesAreReported, AnImageStarts};

/// Two processes and four quanta of one step.
pub fn two_processes_take_turns()
    ensures { TwoProcessesTakeTurns }
{}

/// A fork, a yield, an exit and faults of one process.
pub fn one_process_calls()
    ensures { OneProcessCalls }
{}

/// A step that goes on with a write.
pub fn a_write_goes_on()
    ensures { AWriteGoesOn }
{}

/// What is reported of touches, and where a frame is lacked.
pub fn touches_are_reported()
    ensures { TouchesAreReported }
{}

/// The starting machine of an image.
pub fn an_image_starts()
    ensures { AnImageStarts }
{}
