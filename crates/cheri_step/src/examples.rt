// One instruction over small contents, worked out. Each function states what becomes of one, does nothing and takes nothing.
ghost use Rattle.cheri_step.specs.Examples.{AnInstructionLacksAFrame};

/// A fetch or a store of a shared page lacks a frame where none is free, and else gets a copy.
pub fn an_instruction_lacks_a_frame()
    ensures { AnInstructionLacksAFrame }
{}
