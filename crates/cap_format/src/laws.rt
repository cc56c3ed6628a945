// Laws of the format, each as the contract of a call that does nothing.
ghost use Rattle.cap_format.specs.Numbers.{ConstantsAreFixed};
ghost use Rattle.cap_format.specs.Pattern.{EachHasOneBase, KeepsBoundsWithin};
ghost use Rattle.cap_format.specs.SetBounds.{EachHasLeastExponent, RoundedLengthsAreExact};
ghost use Rattle.cap_format.specs.Code.{CodeMoves, CodeGoesOn};
ghost use Rattle.cap_format.specs.Rules.{FirstFaultsDecide};
ghost use Rattle.cap_format.specs.ImageLaws.{ImagesAreSound, LongFilesAreNone};
ghost use Rattle.cap_format.specs.ImageExamples.{WorkedImagesHold};
ghost use Rattle.cap_format.specs.Moves.{EachMoveIsOne, MovesGoInside, MovesToItselfAreNone, TwoMovesAreOne};

/// Each pattern of 128 bits has one base, which is what [`Cap::base`](crate::Cap::base) gives.
pub fn each_has_one_base()
    ensures { EachHasOneBase }
{}

/// An address from the base to the top, both counted, has the same base and the same top.
pub fn keeps_bounds_within()
    ensures { KeepsBoundsWithin }
{}

/// For each size from 4096 bytes on, below `2^64`, there is a least exponent with which rounded bounds have a
/// length below `2^(exponent + 13)` bytes. It is below 53.
pub fn each_has_least_exponent()
    ensures { EachHasLeastExponent }
{}

/// The bounds of a rounded length, before it is taken modulo `2^64`, are exact just at the addresses that keep
/// its mask. No shorter length from the size on has exact bounds there.
///
/// See [`rounded_length`](crate::rounded_length) and [`align_mask`](crate::align_mask).
pub fn rounded_lengths_are_exact()
    ensures { RoundedLengthsAreExact }
{}

/// For a capability inside a region of `2^s` bytes, s from 12 to 24, and another such region there is one
/// pattern with the same upper bits, exponent and length whose address and base are the distance greater.
///
/// There are up to [`MOST_REGIONS`](crate::MOST_REGIONS) such regions from [`FIRST_REGION`](crate::FIRST_REGION)
/// on.
pub fn each_move_is_one()
    ensures { EachMoveIsOne }
{}

/// A capability inside a region of `2^s` bytes, s from 12 to 24, that moves to another such region is inside
/// that one.
pub fn moves_go_inside()
    ensures { MovesGoInside }
{}

/// A move to the same region of `2^s` bytes, s from 12 to 24, changes nothing.
pub fn moves_to_itself_are_none()
    ensures { MovesToItselfAreNone }
{}

/// Two moves between regions of `2^s` bytes, s from 12 to 24, are one move by the sum of their distances.
pub fn two_moves_are_one()
    ensures { TwoMovesAreOne }
{}

/// A capability of code inside a region that moves to another region is one of code there: it is tagged and plain,
/// has [`EXECUTE`](crate::EXECUTE), and its address is a multiple of 4.
pub fn code_moves()
    ensures { CodeMoves }
{}

/// Where the bounds of a capability of code inside a region hold the four bytes from its address on, it is one of
/// code inside the region with the address four bytes on too. Since it has its tag, its bounds are the same.
pub fn code_goes_on()
    ensures { CodeGoesOn }
{}

/// The constants of this crate are the numbers that the definitions fix.
pub fn constants_are_fixed()
    ensures { ConstantsAreFixed }
{}

/// The fault of rules in order is that of the first one that fails, and there is none exactly where each holds.
pub fn first_faults_decide()
    ensures { FirstFaultsDecide }
{}

/// What follows at once for an image: its segments rise without overlap, in the region and in the file, its entry and its
/// relocations lie on their pages, and it has at most a region's pages.
pub fn images_are_sound()
    ensures { ImagesAreSound }
{}

/// A file of more than [`IMAGE_BYTES`](crate::IMAGE_BYTES) bytes is no image, whatever is in it.
pub fn long_files_are_none()
    ensures { LongFilesAreNone }
{}

/// Images, and files that break a rule, that are worked out: each rule, at its edges and in its order.
pub fn worked_images_hold()
    ensures { WorkedImagesHold }
{}
