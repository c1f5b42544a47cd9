// The names of faults, in lower-case words.
ghost use Rattle.std.specs.Prelude.{◌≡◌};
ghost use Rattle.command_endings.specs.Names.{why_text, query_why_text, group_why_text, page_text};

use control_reader::PageFault;
use group_faults::GroupWhy;
use nquads_text::Why;
use pattern_parser::QueryWhy;

/// The name of a fault of data.
pub fn why_text(why: Why) -> &'static [u8]
    ensures { result.now ≡ why_text why }
{
    match why {
        Why::Utf8 => b"utf8",
        Why::Statement => b"statement",
        Why::Escape => b"escape",
        Why::RelativeIri => b"relative iri",
        Why::LangString => b"lang string",
        Why::TermTooLong => b"term too long",
    }
}

/// The name of a fault that a query without groups may have as well.
fn query_why_text(why: QueryWhy) -> &'static [u8]
    ensures { result.now ≡ query_why_text why }
{
    match why {
        QueryWhy::TooLong => b"too long",
        QueryWhy::Utf8 => b"utf8",
        QueryWhy::Token => b"token",
        QueryWhy::Grammar => b"grammar",
        QueryWhy::UnknownPrefix => b"unknown prefix",
        QueryWhy::RelativeIri => b"relative iri",
        QueryWhy::LangString => b"lang string",
        QueryWhy::TooManyPatterns => b"too many patterns",
    }
}

/// The name of a fault of a query.
pub fn group_why_text(why: GroupWhy) -> &'static [u8]
    ensures { result.now ≡ group_why_text why }
{
    match why {
        GroupWhy::Basic(why) => query_why_text(why),
        GroupWhy::TooDeep => b"too deep",
        GroupWhy::SharedBlank => b"shared blank",
    }
}

/// The name of a fault of a page.
pub fn page_text(fault: PageFault) -> &'static [u8]
    ensures { result.now ≡ page_text fault }
{
    match fault {
        PageFault::Text => b"text",
        PageFault::NoTopic => b"no topic",
        PageFault::NoCount => b"no count",
        PageFault::CountText => b"count text",
        PageFault::NoForm => b"no form",
        PageFault::BadTemplate => b"bad template",
        PageFault::TwoNext => b"two next",
        PageFault::ForeignLink => b"foreign link",
        PageFault::BlankData => b"blank data",
        PageFault::OutOfMemory => b"out of memory",
    }
}
