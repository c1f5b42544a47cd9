// One block of a query with groups, asked as a query of its own.
ghost use Rattle.std.specs.Prelude.{◌≡◌, ◌≤◌, length, IfOk, IfErr, IsErrOf, MatchOption, [], ◌∷◌};
ghost use Rattle.std.specs.List.{AllByRecursion};
ghost use Rattle.tpf_base.specs.Links.{SameAllowed};
ghost use Rattle.bgp_core.specs.Queries.{IsPatternOf};
ghost use Rattle.group_query.specs.Trees.{block_query};
ghost use Rattle.tpf_client.specs.Bounds.{SuitsCalls};
ghost use Rattle.group_patterns.specs.Blocks.{GivesRows};
ghost use Rattle.group_patterns.specs.Asking.{CallEnds, block_in};

use bgp_core::{Pattern, Query, Row, copy_patterns};
use group_query::Step;
use single_query::collect;
use std::alloc::Global;
use std::sync::Wait;
use template_fill::WebAddress;
use text_base::{OutOfMemory, Text};
use tpf_base::Dial;
use tpf_client::{ClientFault, Options, Report};

/// The patterns of the block that a step is.
pub(crate) fn patterns_of(step: &Step) -> Option<&[Pattern]>
    ensures { MatchOption result (block_in step.now ≡ []) (λ ps. block_in step.now ≡ ps.now ∷ []) }
{
    match step {
        Step::Block(patterns) => Some(patterns.as_slice()),
        Step::Empty => None,
        Step::Join => None,
        Step::Optional => None,
        Step::Union => None,
    }
}

/// The same texts again, in their order.
fn copy_names(alloc: Global, names: &[Text]) -> Result<Vec<Text>, OutOfMemory>
    ensures { IfOk result (λ v. v.items ≡ names.now) }
{
    let mut copy = Vec::with_capacity(alloc, names.len())?;
    for name in names {
        copy.push(Text::copy(alloc, name.as_str())?)?;
    }
    Ok(copy)
}

/// The query of a block: its patterns and the names of the whole query. It selects nothing.
fn block_query(alloc: Global, names: &[Text], patterns: &[Pattern]) -> Result<Query, OutOfMemory>
    requires { AllByRecursion (IsPatternOf (length names.now)) patterns.now }
    ensures { IfOk result (λ q. q ≡ block_query names.now patterns.now) }
{
    let names = copy_names(alloc, names)?;
    let patterns = copy_patterns(alloc, patterns)?;
    Ok(Query::new(patterns, names, Vec::new(alloc)))
}

/// Asks a block. The rows have a place for each name of the whole query.
pub(crate) fn collect_block<R: Wait, W: Dial>(
    rt: &R,
    alloc: Global,
    names: &[Text],
    patterns: &[Pattern],
    start: &WebAddress,
    options: &Options,
    wire: &mut W,
) -> Result<(Vec<Row>, Report), ClientFault>
    requires bounds { SuitsCalls options.now }
    requires left { 1 ≤ options.now.budget }
    requires fit { AllByRecursion (IsPatternOf (length names.now)) patterns.now }
    ensures ok { IfOk result (λ r. GivesRows (W.allows wire.old) options.now start.now
        (block_query names.now patterns.now) (record { report = r.1; rows = r.0.items }) (W.state wire.old)
        (W.state wire.new)) }
    ensures err { IfErr result (λ fault. CallEnds (W.allows wire.old) options.now start.now names.now patterns.now
        fault (W.state wire.old) (W.state wire.new)) }
    ensures sink { IsErrOf result ClientFault.Sink → ⊥ }
    ensures allowed { SameAllowed (W.allows wire.old) (W.allows wire.new) }
{
    match block_query(alloc, names, patterns) {
        Err(_) => Err(ClientFault::OutOfMemory),
        Ok(query) => collect(rt, alloc, &query, start, options, wire),
    }
}
