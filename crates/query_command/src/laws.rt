// What the commands rest on, told to a proof by calls that do nothing.
ghost use Rattle.std.specs.Prelude.{◌≤◌, ◌<◌, ◌^◌, length};
ghost use Rattle.std.specs.List.{AllByRecursion};
ghost use Rattle.rdf_terms.specs.declared.limits.TheConstants.{MOST_ROWS};
ghost use Rattle.bgp_core.specs.Queries.{IsValidPattern};
ghost use Rattle.data_servers.specs.Servers.{serving};
ghost use Rattle.query_command.specs.Limits.{FilesAreServable, GeneratedAreServable, QueriesAreAskable, GroupsAreAskable};
ghost use Rattle.query_command.specs.Loops.{WiresAreHonest};
ghost use Rattle.query_command.specs.Over.{IsValidStep, AreValidBlocks};

use bgp_core::Pattern;
use data_servers::laws::generated_data_are_small;
use fragment_server::FragmentServer;
use group_query::{GroupQuery, Step};
use nquads_text::laws::what_is_read_is_readable;
use pattern_parser::laws::terms_are_short;
use tpf_client::Options;
use triple_table::laws::served_terms_are_short;

/// The data that are served of a file, those that are generated, and the patterns of a query that a file
/// holds, also of each block of one with groups, are within the limits under which a server answers each
/// address of a plan with a page that is read. The call does nothing; it tells a proof of it.
pub fn commands_keep_limits()
    ensures files { FilesAreServable }
    ensures generated { GeneratedAreServable }
    ensures queries { QueriesAreAskable }
    ensures groups { GroupsAreAskable }
{
    generated_data_are_small();
    what_is_read_is_readable();
    terms_are_short();
    served_terms_are_short();
}

/// A wire in one process answers at every address as its server does, over each history of as many data sets as the
/// number of the version that is served, of which the last is the one that is served; however often it was called. The
/// call does nothing; it tells a proof of it.
pub fn wires_in_process_are_honest()
    ensures { WiresAreHonest }
{}

/// A table has fewer triples than a page can count. The call does nothing; it tells a proof of it.
pub(crate) fn is_few(server: &FragmentServer)
    ensures { length (serving server.now).data_set < 2 ^ 64 }
{
    let _count = server.server().table().len();
}

/// A request carries one row at least, and no more than an address may have. The call does nothing; it tells a proof of it.
pub(crate) fn is_sized(options: &Options)
    ensures low { 1 ≤ options.now.block }
    ensures high { options.now.block ≤ MOST_ROWS }
{
    options.block.get();
}

/// That the fixed parts of patterns are valid terms. It does nothing.
fn patterns_are_valid(patterns: &[Pattern])
    ensures { AllByRecursion IsValidPattern patterns.now }
{
    for pattern in patterns {
        pattern.is_valid();
    }
}

/// That the fixed parts of a block are valid terms. It does nothing.
fn step_is_valid(step: &Step)
    ensures { IsValidStep step.now }
{
    match step {
        Step::Block(patterns) => patterns_are_valid(patterns.as_slice()),
        Step::Empty => {}
        Step::Join => {}
        Step::Optional => {}
        Step::Union => {}
    }
}

/// That the fixed parts of the blocks of steps are valid terms. It does nothing.
fn steps_are_valid(steps: &[Step])
    ensures { AllByRecursion IsValidStep steps.now }
{
    for step in steps {
        step_is_valid(step);
    }
}

/// That the fixed parts of all blocks are valid terms. It does nothing.
pub(crate) fn blocks_are_valid(query: &GroupQuery)
    ensures { AreValidBlocks query.now }
{
    steps_are_valid(query.steps());
}
