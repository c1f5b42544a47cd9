// Laws of the definitions.
ghost use Rattle.row_algebra.specs.Algebra.{OrderIsFree};

/// The order of the rows of both lists changes the order of what they give alone.
pub fn order_is_free()
    ensures { OrderIsFree }
{}
