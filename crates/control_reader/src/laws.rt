// The laws of pages.
ghost use Rattle.control_reader.specs.Authorities.{PagesKeepAuthority};
ghost use Rattle.control_reader.specs.Laws.{OnePage, OneFault, NoPageAtFault};

use template_fill::laws::{authorities_are_hosts_and_ports, expansions_share_authority};

/// A body is one page at most under an address, or has one first fault at most, and never both.
pub fn a_body_is_one_page()
    ensures page { OnePage }
    ensures fault { OneFault }
    ensures never_both { NoPageAtFault }
{}

/// What is taken from a page keeps the authority of its address: each address that the page's form
/// gives, and that of the next page, have the host and the port of the page's address.
pub fn pages_keep_authority()
    ensures { PagesKeepAuthority }
{
    authorities_are_hosts_and_ports();
    expansions_share_authority();
}
