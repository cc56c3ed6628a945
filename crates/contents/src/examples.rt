// Small contents, worked out. Each function states what becomes of one, does nothing and takes nothing.
ghost use Rattle.contents.specs.Examples.{ASecondCopyFindsNoFrame, TheLastMemberMoves, TheHomeDecides};

/// A transfer over two shared pages with one frame free copies the first, and the answer says so.
pub fn a_second_copy_finds_no_frame()
    ensures { ASecondCopyFindsNoFrame }
{}

/// A page that three regions share is copied for the one that reads, and moves where one region is left.
pub fn the_last_member_moves()
    ensures { TheLastMemberMoves }
{}

/// The home of a page decides whether it is foreign, and not who came from whom.
pub fn the_home_decides()
    ensures { TheHomeDecides }
{}
