// What the calls of a space of stores keep of a sound content.
ghost use Rattle.machine.specs.Contents.{CallsKeepSound};

use contents::calls_keep_whole;
use machine_types::pages_are_moved;

/// Each call of a space of stores, under its conditions, keeps a content sound.
pub fn calls_keep_sound()
    ensures { CallsKeepSound }
{
    calls_keep_whole();
    pages_are_moved();
}
