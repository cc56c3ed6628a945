// A board, worked out. The function states what it stands for, does nothing and takes nothing.
ghost use Rattle.stores.specs.Examples.{ThePictureStands};

/// A board of two regions that share a frame stands for the content in which the child has the pointer moved, and for none
/// in which the pointer, the rights, the home or the members are others.
pub fn the_picture_stands()
    ensures { ThePictureStands }
{}
