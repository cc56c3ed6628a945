// Laws of the integer values. Each function states one, does nothing and takes nothing.
ghost use Rattle.int_step.specs.Laws.{DifferencesUndoSums, ProductsAreWhole, DivisionsAreExact, ShiftsMoveBits, ValuesFit};

/// A sum less one of its terms is the other.
pub fn differences_undo_sums()
    ensures { DifferencesUndoSums }
{}

/// The two halves of a product make the whole product, of unsigned and of signed integers.
pub fn products_are_whole()
    ensures { ProductsAreWhole }
{}

/// A dividend is the quotient times the divisor plus the remainder, which is smaller than the divisor and has the dividend's
/// sign; and what the special rows give.
pub fn divisions_are_exact()
    ensures { DivisionsAreExact }
{}

/// Where a shift brings each bit.
pub fn shifts_move_bits()
    ensures { ShiftsMoveBits }
{}

/// Each value has 64 bits, and one of a row of 32 bits is extended from its low 32.
pub fn values_fit()
    ensures { ValuesFit }
{}
