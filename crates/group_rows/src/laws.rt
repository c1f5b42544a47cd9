// Laws of the definitions.
ghost use Rattle.group_rows.specs.Gathering.{SolutionsSuffice};

use row_algebra::laws::order_is_free;

/// What is gathered from the solutions of each block, in whatever order they come, are the answers over the triples, in some
/// order.
pub fn solutions_suffice()
    ensures { SolutionsSuffice }
{
    order_is_free();
}
