// Laws of what descriptors and pipes are seen as. Each function states one, does nothing and takes nothing.
ghost use Rattle.pipe_files.specs.Laws.{NothingIsOpen, TablesAreGiven};

use machine::pipes_are_seen;

/// At the beginning no descriptor is in use, and no pipe has bytes.
pub fn nothing_is_open()
    ensures { NothingIsOpen }
{}

/// A slot that is given a table has that one, and every other slot its own; a pipe that a descriptor names keeps its bytes, and any other has
/// none.
pub fn tables_are_given()
    ensures { TablesAreGiven }
{
    pipes_are_seen();
}
