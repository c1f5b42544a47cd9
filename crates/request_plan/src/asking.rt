// What a block of rows asks for first.
ghost use Rattle.std.specs.Prelude.{◌≡◌, IfOk, true};
ghost use Rattle.std.specs.List.{All};
ghost use Rattle.rdf_terms.specs.Askable.{askable};
ghost use Rattle.bgp_core.specs.Instances.{instance};
ghost use Rattle.request_plan.specs.Blocks.{selection_for};
ghost use Rattle.request_plan.specs.Rounds.{IsFirstRound, ShareForms};

use crate::block::{RowBlock, selection_of};
use crate::{FormList, Round};
use bgp_core::Pattern;
use std::alloc::Global;
use tpf_base::OutOfMemory;

/// The round of the first pages that a block asks of a pattern. Condition: the pattern can be asked
/// for under each row. The only error is out of memory.
pub fn first_round(
    alloc: Global,
    forms: &FormList,
    pattern: &Pattern,
    rows: &RowBlock,
) -> Result<Round, OutOfMemory>
    requires { All (λ row. askable (instance pattern.now row) ≡ true) rows.now }
    ensures first { IfOk result (λ r.
        IsFirstRound forms.now (selection_for pattern.now rows.now) r) }
    ensures shared { IfOk result (λ r. ShareForms forms.now r.addresses) }
{
    // That there is a row: contracts see a block as a list.
    let _first = rows.first();
    let (slots, restricted) = selection_of(alloc, pattern, rows)?;
    let round = forms.first_round(alloc, &slots, restricted.as_slice());
    drop(slots);
    round
}
