// The query of a file.
ghost use Rattle.std.specs.Prelude.{◌≡◌, Err, IfOk, IfErr};
ghost use Rattle.data_files.specs.Queries.{IsOfAskedFile, IsOfQueryFile};
ghost use Rattle.data_files.specs.Kept.{ReadsNamed};
ghost use Rattle.data_files.specs.Causes.{QueryCause, QueryDecides, GivesQuery, unread_query};

use crate::QueryFileFault;
use bgp_core::Query;
use group_faults::{GroupFault, GroupWhy};
use group_parser::{Asked, parse_asked};
use pattern_parser::{QueryFault, QueryWhy, parse};
use query_tokens::LONGEST_QUERY;
use std::alloc::Global;
use tpf_base::{FileFault, Shelf, read_file};

/// What the text of a query may hold.
#[derive(Clone, Copy)]
pub enum Grammar {
    /// One basic graph pattern alone (SPARQL 1.1 Query, 5.1).
    Patterns,
    /// Groups too: DISTINCT, OPTIONAL, UNION, and groups in one another (SPARQL 1.1 Query, 5 to 7 and 15.3).
    Groups,
}

fn unread(fault: FileFault) -> QueryFileFault
    ensures { result ≡ unread_query fault }
{
    match fault {
        FileFault::Failed => QueryFileFault::File,
        FileFault::TooLong => QueryFileFault::Bad {
            at: LONGEST_QUERY,
            why: GroupWhy::Basic(QueryWhy::TooLong),
        },
        FileFault::OutOfMemory => QueryFileFault::OutOfMemory,
    }
}

/// Reads the query of a file by the grammar of queries with groups.
fn read_groups<F: Shelf>(alloc: Global, shelf: &mut F, name: &str) -> Result<Asked, QueryFileFault>
    ensures ok { IfOk result (IsOfAskedFile Grammar.Groups (F.state shelf.old).told name.now) }
    ensures err { IfErr result (QueryCause Grammar.Groups (F.state shelf.old) (F.state shelf.new) name.now) }
    ensures reads { ReadsNamed name.now (F.state shelf.old) (F.state shelf.new) (result ≡ Err QueryFileFault.File) }
{
    let bytes = match read_file(alloc, shelf, name, LONGEST_QUERY) {
        Ok(bytes) => bytes,
        Err(fault) => return Err(unread(fault)),
    };
    match parse_asked(alloc, &bytes) {
        Ok(asked) => Ok(asked),
        Err(GroupFault::Bad { at, why }) => Err(QueryFileFault::Bad { at, why }),
        Err(GroupFault::OutOfMemory) => Err(QueryFileFault::OutOfMemory),
    }
}

/// Reads the query of a file, a text of at most `LONGEST_QUERY` (262144) bytes, as one basic graph pattern
/// (SPARQL 1.1 Query, 5.1 and 19.8). What makes a query one with groups (DISTINCT, OPTIONAL, UNION, a group in
/// another) has no place in its grammar.
///
/// The faults, and what becomes of the shelf, are as of `read_query` by that grammar.
pub fn read_patterns<F: Shelf>(
    alloc: Global,
    shelf: &mut F,
    name: &str,
) -> Result<Query, QueryFileFault>
    ensures ok { IfOk result (λ query. IsOfQueryFile (F.state shelf.old).told name.now query) }
    ensures err { IfErr result (QueryCause Grammar.Patterns (F.state shelf.old) (F.state shelf.new) name.now) }
    ensures reads { ReadsNamed name.now (F.state shelf.old) (F.state shelf.new) (result ≡ Err QueryFileFault.File) }
{
    let bytes = match read_file(alloc, shelf, name, LONGEST_QUERY) {
        Ok(bytes) => bytes,
        Err(fault) => return Err(unread(fault)),
    };
    match parse(alloc, &bytes) {
        Ok(query) => Ok(query),
        Err(QueryFault::Bad { at, why }) => Err(QueryFileFault::Bad {
            at,
            why: GroupWhy::Basic(why),
        }),
        Err(QueryFault::OutOfMemory) => Err(QueryFileFault::OutOfMemory),
    }
}

/// The same as a query that may have groups, which it has not.
fn read_plain<F: Shelf>(alloc: Global, shelf: &mut F, name: &str) -> Result<Asked, QueryFileFault>
    ensures ok { IfOk result (IsOfAskedFile Grammar.Patterns (F.state shelf.old).told name.now) }
    ensures err { IfErr result (QueryCause Grammar.Patterns (F.state shelf.old) (F.state shelf.new) name.now) }
    ensures reads { ReadsNamed name.now (F.state shelf.old) (F.state shelf.new) (result ≡ Err QueryFileFault.File) }
{
    match read_patterns(alloc, shelf, name) {
        Ok(query) => Ok(Asked::Plain(query)),
        Err(fault) => Err(fault),
    }
}

fn read_by<F: Shelf>(
    alloc: Global,
    shelf: &mut F,
    name: &str,
    grammar: Grammar,
) -> Result<Asked, QueryFileFault>
    ensures ok { IfOk result (IsOfAskedFile grammar (F.state shelf.old).told name.now) }
    ensures err { IfErr result (QueryCause grammar (F.state shelf.old) (F.state shelf.new) name.now) }
    ensures reads { ReadsNamed name.now (F.state shelf.old) (F.state shelf.new) (result ≡ Err QueryFileFault.File) }
{
    match grammar {
        Grammar::Groups => read_groups(alloc, shelf, name),
        Grammar::Patterns => read_plain(alloc, shelf, name),
    }
}

/// Reads the query of a file: a text of at most `LONGEST_QUERY` (262144) bytes (SPARQL 1.1 Query, 19.8). It is
/// a query of one basic graph pattern where its tokens hold none of DISTINCT, OPTIONAL and UNION and one `{`.
/// Else it is a query with groups, where the grammar has them.
///
/// `Bad` comes exactly where the file holds a text that is no query by the grammar, with its first fault,
/// `File` only where the shelf's count of faults rose, and `OutOfMemory` where memory ran out. What the shelf
/// tells stays as it was. The file is found once, and files found before are left as they were. Over a
/// faultless shelf that holds the name `File` never comes, as long as numbers are left.
pub fn read_query<F: Shelf>(
    alloc: Global,
    shelf: &mut F,
    name: &str,
    grammar: Grammar,
) -> Result<Asked, QueryFileFault>
    ensures ok { IfOk result (IsOfAskedFile grammar (F.state shelf.old).told name.now) }
    ensures err { IfErr result (QueryCause grammar (F.state shelf.old) (F.state shelf.new) name.now) }
    ensures exact { QueryDecides grammar (F.state shelf.old) (F.state shelf.new) name.now
        (λ outcome. GivesQuery outcome result) }
    ensures reads { ReadsNamed name.now (F.state shelf.old) (F.state shelf.new) (result ≡ Err QueryFileFault.File) }
{
    read_by(alloc, shelf, name, grammar)
}
