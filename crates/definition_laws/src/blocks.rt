// Laws of blocks.
ghost use Rattle.request_plan.specs.BlockLaws.{BlocksAreCut};
ghost use Rattle.request_plan.specs.RowPlans.{BlocksOfOneAreRows};

/// Rows are cut into blocks: no row is lost or doubled, each block has at least one row and at most
/// so many, and what a block of several rows asks for has short targets.
pub fn blocks_are_cut()
    ensures { BlocksAreCut }
{}

/// Where a request carries one row at most, the plan is the one row by row: the first pages of the
/// instances of all patterns, the further pages of the one with the least fragment, and the same
/// for each of its matches and the other patterns.
pub fn blocks_of_one_are_rows()
    ensures { BlocksOfOneAreRows }
{}
