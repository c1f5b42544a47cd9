// The law of readings and faults of N-Quads.
ghost use Rattle.nquads_text.specs.Laws.{IsReadOrFaulty, IsNotBoth};

/// A text has a reading or a first fault, and not both.
pub fn one_of_two()
    ensures one { IsReadOrFaulty }
    ensures not_both { IsNotBoth }
{}
