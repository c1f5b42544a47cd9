// Why a text is no query with groups.
ghost use Rattle.std.specs.Prelude.{◌≡◌};
ghost use Rattle.group_faults.specs.Faults.{basic};

use pattern_parser::{QueryFault, QueryWhy};
use text_base::OutOfMemory;

/// The kinds of faults of the text of a query with groups. Of several, the first kind in this order is
/// told, and of this kind the first place. Places are in bytes, from 0.
#[derive(Clone, Copy, Debug, PartialEq, Eq)]
pub enum GroupWhy {
    /// A fault that a query without groups may have as well, in the grammar of queries with groups, and
    /// with all patterns of the text counted.
    Basic(QueryWhy),
    /// Groups nest deeper than `MOST_OPEN` (32), the outermost having depth 1: the first `{` that opens
    /// a group inside so many.
    TooDeep,
    /// The label of a blank node stands in two blocks (SPARQL 1.1, section 5.1.1): the first place of a
    /// label that stands in an earlier block.
    SharedBlank,
}

/// Why a text gives no query with groups.
#[derive(Clone, Copy, Debug)]
pub enum GroupFault {
    /// The first fault of the text and its place, in bytes from 0.
    Bad { at: usize, why: GroupWhy },
    /// Out of memory.
    OutOfMemory,
}

impl From<OutOfMemory> for GroupFault {
    ghost use Rattle.std.specs.Prelude.{◌≡◌};
    ghost use Rattle.group_faults.specs.declared.fault.GroupFault.TheVariants.{OutOfMemory};

    ghost from_gives = { λ _ e. e ≡ OutOfMemory };

    fn from(_: OutOfMemory) -> Self {
        GroupFault::OutOfMemory
    }
}

/// The fault of a query as that of a query with groups.
pub fn as_group_fault(fault: QueryFault) -> GroupFault
    ensures { result ≡ basic fault }
{
    match fault {
        QueryFault::Bad { at, why } => GroupFault::Bad {
            at,
            why: GroupWhy::Basic(why),
        },
        QueryFault::OutOfMemory => GroupFault::OutOfMemory,
    }
}
