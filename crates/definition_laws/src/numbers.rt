// The laws of numbers in decimal digits.
ghost use Rattle.tpf_base.specs.Decimals.{NumbersReadBack, DigitsAreOfTheirNumber, NumbersDiffer, AreDecimal};

/// The decimal digits of every number, however large, are its own alone, have no leading zero, and
/// read back as it. Where the standard library's digits reach, below 10 ^ 64, they are these.
pub fn numbers_read_back()
    ensures read { NumbersReadBack }
    ensures digits { DigitsAreOfTheirNumber }
    ensures differ { NumbersDiffer }
    ensures decimal { AreDecimal }
{}
