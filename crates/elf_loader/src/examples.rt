// A worked image and worked capabilities: a function that states them, does nothing and takes nothing.
ghost use Rattle.elf_loader.specs.StartExamples.{WorkedStartsHold};

use contents::calls_keep_whole;

/// An image that is worked out and may be started, and the capabilities of two relocations and of the start, bit for bit.
pub fn worked_starts_hold()
    ensures { WorkedStartsHold }
{
    calls_keep_whole();
}
