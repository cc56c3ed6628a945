// Laws of boards. Each function states one, does nothing and takes nothing.
ghost use Rattle.stores.specs.Laws.{OneFrameForOneClass, FramesHaveClasses, BoardsStandForWholeContents, TakenAreUsed, SharersAreFew, BoardsShowPages, EmptyStandsForNothing, MadeFramesAreInAll};

/// On a board two pages have one frame exactly where their members are in one class.
pub fn one_frame_for_one_class()
    ensures { OneFrameForOneClass }
{}

/// On a board the class of a page has the home of its frame, and as many members as the frame has sharers.
pub fn frames_have_classes()
    ensures { FramesHaveClasses }
{}

/// Each content that a board stands for is whole: each page is a member of exactly one class, and each tagged granule is
/// inside the region.
pub fn boards_stand_for_whole_contents()
    ensures { BoardsStandForWholeContents }
{}

/// On a board the taken frames are as many as the classes, and no more than there are.
pub fn taken_are_used()
    ensures { TakenAreUsed }
{}

/// A frame has at most as many sharers as there are regions.
pub fn sharers_are_few()
    ensures { SharersAreFew }
{}

/// A board is empty exactly where it stands for nothing.
pub fn empty_stands_for_nothing()
    ensures { EmptyStandsForNothing }
{}

/// What a board shows of pages: the same to each content that it stands for, moved from frames whose home is a region.
pub fn boards_show_pages()
    ensures { BoardsShowPages }
{}

/// The number of made frames is the greatest that the memory, the pool and the owners of a board each have.
pub fn made_frames_are_in_all()
    ensures { MadeFramesAreInAll }
{}
