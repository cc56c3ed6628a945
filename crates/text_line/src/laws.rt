// Laws of the texts: each is a function that states one, does nothing and takes nothing.
ghost use Rattle.text_line.specs.Texts.{ConstantsAreFixed, HexadecimalsAreExact};

/// The constants of this crate are the numbers that the definitions fix.
pub fn constants_are_fixed()
    ensures { ConstantsAreFixed }
{}

/// The hexadecimal digits of a number are that number, in lower case.
pub fn hexadecimals_are_exact()
    ensures { HexadecimalsAreExact }
{}
