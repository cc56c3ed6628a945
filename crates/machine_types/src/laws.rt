// Laws of the definitions. Each function states one, does nothing and takes nothing.
ghost use Rattle.machine_types.specs.Numbers.{ConstantsAreFixed};
ghost use Rattle.machine_types.specs.DecimalNumbers.{NumbersAreDecimal};
ghost use Rattle.machine_types.specs.NumberLists.{ListsAreExact};
ghost use Rattle.machine_types.specs.Stores.{PagesAreNumbered};
ghost use Rattle.machine_types.specs.MemoryLaws.{NumbersAreBytes, StoredNumbersAreRead, StoredBytesAreRead, PagesAreMade, PagesAreMoved, WhatMayBeHeld, RightsAreBits};

/// The page numbers of a store rise, and are those of the pages that it has.
pub fn pages_are_numbered()
    ensures { PagesAreNumbered }
{}

/// The constants of this crate are the numbers that the definitions fix.
pub fn constants_are_fixed()
    ensures { ConstantsAreFixed }
{}

/// A number is its bytes, the lowest first, and byte i of a granule is its bits `8*i` to `8*i + 7`.
pub fn numbers_are_bytes()
    ensures { NumbersAreBytes }
{}

/// A number that is stored is read back; the tag of its granule is gone, and all else stays.
pub fn stored_numbers_are_read()
    ensures { StoredNumbersAreRead }
{}

/// Bytes that are stored are read back; just the tags of the granules that they overlap are gone, and all else stays.
pub fn stored_bytes_are_read()
    ensures { StoredBytesAreRead }
{}

/// A page that is made of bytes has these bytes, then zeros, and no tag.
pub fn pages_are_made()
    ensures { PagesAreMade }
{}

/// A moved page has the same rights, its untagged granules bit for bit, and each tagged one moved.
pub fn pages_are_moved()
    ensures { PagesAreMoved }
{}

/// Each access wants a right of its own.
pub fn rights_are_bits()
    ensures { RightsAreBits }
{}

/// What a region may hold: with a tag nothing but what is inside it.
pub fn what_may_be_held()
    ensures { WhatMayBeHeld }
{}

/// A text is a number exactly where it is the decimal text of one.
pub fn numbers_are_decimal()
    ensures { NumbersAreDecimal }
{}

/// Lists are read back from the text of their lines, and the line at which a text is refused is the first wrong one.
pub fn lists_are_exact()
    ensures { ListsAreExact }
{
    numbers_are_decimal();
}
