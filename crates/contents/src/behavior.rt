// What calls do, in the words of their users. Each function states a law, does nothing and takes nothing.
ghost use Rattle.contents.specs.Whole.{CallsKeepWhole};
ghost use Rattle.contents.specs.Splitting.{TransfersSplit, TransfersOnOnePage};
ghost use Rattle.contents.specs.Reading.{ReadsAreSeen};
ghost use Rattle.contents.specs.Writing.{WrittenNumbersAreSeen, WritesAreRead, AllElseStays};
ghost use Rattle.contents.specs.Adding.{PagesAreAdded};
ghost use Rattle.contents.specs.Refusing.{RefusalsAreInOrder, CoversEachPage};
ghost use Rattle.contents.specs.Touching.{PreparedRefusalsAreNeeded, TouchesAreNamed, TouchesLeaveOthers, PreparedTouchesAreNamed, PreparedTouchesAreNeeded};
ghost use Rattle.contents.specs.Forking.{ForksAreDone, ChildrenAreCopies, ChildrenShare, ForksAreRefused, EndsFreeFrames};
ghost use Rattle.contents.specs.Standing.{StandingsStay};
ghost use Rattle.contents.specs.Agreeing.{RulesAgree, StoreDecidesLooks};
ghost use Rattle.contents.specs.Looking.{LooksAgree, NoneIsNone};
ghost use Rattle.contents.specs.Sharing.{AccountsStay, OthersKeepTheirClass};

/// Each call, under its conditions, keeps a content whole.
pub fn calls_keep_whole()
    ensures { CallsKeepWhole }
{}

/// A transfer of some bytes and more is one of the first and then one of those after them.
pub fn transfers_split()
    ensures { TransfersSplit }
{}

/// A transfer of bytes that lie on one page reads and changes that page.
pub fn transfers_on_one_page()
    ensures { TransfersOnOnePage }
{}

/// What a read answers is what `peek` shows.
pub fn reads_are_seen()
    ensures { ReadsAreSeen }
{}

/// What was written is read back.
pub fn writes_are_read()
    ensures { WritesAreRead }
{}

/// A call leaves all that it does not name, in its own region too.
pub fn all_else_stays()
    ensures { AllElseStays }
{}

/// A page that was added has its rights and its bytes, and is its region's own.
pub fn pages_are_added()
    ensures { PagesAreAdded }
{}

/// Which refusal of an access comes where.
pub fn refusals_are_in_order()
    ensures { RefusalsAreInOrder }
{}

/// Bytes are covered exactly where each of their pages is there with the right.
pub fn covers_each_page()
    ensures { CoversEachPage }
{}

/// An access that is Ok names the touch that it made, and makes it exactly where the copy rule says.
pub fn touches_are_named()
    ensures { TouchesAreNamed }
{}

/// A touch leaves the class of each page that does not share with the touched one.
pub fn touches_leave_others()
    ensures { TouchesLeaveOthers }
{}

/// What `prepare` answers are the touches that it made, the lowest page first.
pub fn prepared_touches_are_named()
    ensures { PreparedTouchesAreNamed }
{}

/// Each touch of a transfer was needed when it came.
pub fn prepared_touches_are_needed()
    ensures { PreparedTouchesAreNeeded }
{}

/// A child has the pages of its parent, moved.
pub fn children_are_copies()
    ensures { ChildrenAreCopies }
{}

/// Whom the pages of a child share with, and that nobody else's sharing changes.
pub fn children_share()
    ensures { ChildrenShare }
{}

/// When a fork is refused.
pub fn forks_are_refused()
    ensures { ForksAreRefused }
{}

/// What an end leaves of the account.
pub fn ends_free_frames()
    ensures { EndsFreeFrames }
{}

/// How pages stand that a call does not touch, fork or end.
pub fn standings_stay()
    ensures { StandingsStay }
{}

/// The copy rules give the same values and the same stores where none lacks a frame.
pub fn rules_agree()
    ensures { RulesAgree }
{}

/// What is covered, read and shown depends on the region's own store alone.
pub fn store_decides_looks()
    ensures { StoreDecidesLooks }
{}

/// What `peek`, the rights and how a page stands say of it goes together.
pub fn looks_agree()
    ensures { LooksAgree }
{}

/// A note of no touch names page 0, and a refusal where no touch was made names none.
pub fn none_is_none()
    ensures { NoneIsNone }
{}

/// What is written is what `peek` shows, also where the page may not be read.
pub fn written_numbers_are_seen()
    ensures { WrittenNumbersAreSeen }
{}

/// A fork under `full` is done exactly where it is not refused.
pub fn forks_are_done()
    ensures { ForksAreDone }
{}

/// What neither touches, forks nor ends leaves the account.
pub fn accounts_stay()
    ensures { AccountsStay }
{}

/// A touch leaves homes and sharing of all other pages.
pub fn others_keep_their_class()
    ensures { OthersKeepTheirClass }
{}

/// A transfer is refused only where a page needs a copy.
pub fn prepared_refusals_are_needed()
    ensures { PreparedRefusalsAreNeeded }
{}
