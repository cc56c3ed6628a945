// Laws of the space. Each function states one, does nothing and takes nothing.
ghost use Rattle.full_space.specs.Laws.{FullSpacesShowPages};

use stores::boards_show_pages;

/// What a space shows of pages: each has a translation with its rights and the frame that holds its granules, and no
/// other page has that frame.
pub fn full_spaces_show_pages()
    ensures { FullSpacesShowPages }
{
    boards_show_pages();
}
