// The laws of explicit forms, addresses, pages and histories. Each is a function that does nothing: what its
// contract says is known where it was called.
ghost use Rattle.template_fill.specs.Explicit.{FormsAreShort};
ghost use Rattle.template_fill.specs.WebAddress.{OneAddress};
ghost use Rattle.template_fill.specs.Authorities.{TextsAreAddresses, AuthoritiesAreHostsAndPorts, TemplatesAreKept, ServerTemplatesAreKept, ExpansionsAreAddresses, ExpansionsShareAuthority, PagesAreAddresses, PagesShareAuthority};
ghost use Rattle.template_fill.specs.Pages.{FirstPageIsExpansion, FirstPageHasRows};
ghost use Rattle.template_fill.specs.Answered.{PagesAreGiven, AnsweredGivePages, OnePageIsAsked};
ghost use Rattle.template_fill.specs.Configurations.{VersionsAreValid, OneDataSetIsHistory};

/// The explicit form of a term has at most four bytes more than the IRI, or than the lexical form with its datatype or
/// tag; and no more than the canonical text.
pub fn explicit_forms_are_short()
    ensures { FormsAreShort }
{}

/// A text is one address at most, and each address is that of its own text.
pub fn an_address_is_one()
    ensures one { OneAddress }
    ensures own { TextsAreAddresses }
{}

/// Addresses have one authority exactly where they have one host and one port (RFC 3986, section 3.2).
pub fn authorities_are_hosts_and_ports()
    ensures { AuthoritiesAreHostsAndPorts }
{}

/// The address before the first expression of a template has its path written, so with any values the
/// template expands to an address, which has the authority of this start (RFC 6570, section 3).
pub fn expansions_share_authority()
    ensures kept { TemplatesAreKept }
    ensures server { ServerTemplatesAreKept }
    ensures addresses { ExpansionsAreAddresses }
    ensures authority { ExpansionsShareAuthority }
{}

/// Each page has an address, which has the authority of the base.
pub fn pages_share_authority()
    ensures addresses { PagesAreAddresses }
    ensures authority { PagesShareAuthority }
{}

/// Page 1 of a fragment has the address that the server's template expands to; and page 1 of what rows leave of
/// it has that address with the rows behind it, where the base has no query.
pub fn first_page_is_expansion()
    ensures alone { FirstPageIsExpansion }
    ensures rows { FirstPageHasRows }
{}

/// The address of each page that a fragment has gives that page: its request is answered with the
/// status 200 and the page's body. An address that is answered so gives a page, and a target asks for
/// one page alone.
pub fn pages_are_answered()
    ensures given { PagesAreGiven }
    ensures answered { AnsweredGivePages }
    ensures one { OnePageIsAsked }
{}

/// Each version of a history is a data set of valid terms, and one such data set is a history.
pub fn versions_are_valid()
    ensures versions { VersionsAreValid }
    ensures one { OneDataSetIsHistory }
{}
