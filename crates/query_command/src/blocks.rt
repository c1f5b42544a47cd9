// How many rows the requests of a query may carry.
ghost use Rattle.std.specs.Prelude.{◌≡◌};
ghost use Rattle.query_command.specs.Blocks.{in_blocks, grammar_of};

use data_files::Grammar;
use tpf_client::Options;

/// Whether a request may carry more rows than one.
pub(crate) fn in_blocks(options: &Options) -> bool
    ensures { result ≡ in_blocks options.now }
{
    options.block.get() > 1
}

/// What the text of the query may hold: one basic graph pattern where a request may carry more rows than one,
/// and else groups too.
pub(crate) fn grammar_of(options: &Options) -> Grammar
    ensures { result ≡ grammar_of options.now }
{
    if in_blocks(options) {
        Grammar::Patterns
    } else {
        Grammar::Groups
    }
}
