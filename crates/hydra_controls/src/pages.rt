// The addresses of pages.
ghost use Rattle.std.specs.Prelude.{◌≡◌, ◌≤◌, IfOk};
ghost use Rattle.std.specs.List.{AllByRecursion};
ghost use Rattle.rdf_terms.specs.Fragments.{last_page_of};
ghost use Rattle.tpf_base.specs.Addresses.{IsAddress, address_text};
ghost use Rattle.template_fill.specs.Authorities.{ShareAuthority};
ghost use Rattle.template_fill.specs.Forms.{HasNoBlank};
ghost use Rattle.template_fill.specs.Pages.{page_address};

use crate::Config;
use rdf_terms::Slots;
use std::alloc::Global;
use template_fill::{WebAddress, page_address};
use tpf_base::OutOfMemory;

/// The address of a page of the fragment with these slots (Triple Pattern Fragments, "Paging"), or of
/// what these rows leave of it (brTPF): the base with the fixed places and then the rows in a query
/// part, and above page 1 with `page=` and the number. Its authority is that of the base. No fixed
/// place is a blank node, and the page is 1 or more.
///
/// `OutOfMemory` comes only when memory ran out.
pub fn address(
    alloc: Global,
    config: &Config,
    slots: &Slots,
    rows: &[Slots],
    page: u64,
) -> Result<WebAddress, OutOfMemory>
    requires slots { HasNoBlank slots.now }
    requires rows { AllByRecursion HasNoBlank rows.now }
    requires page { 1 ≤ page }
    ensures text { IfOk result (λ address.
        address_text address ≡ page_address config.now.base (record { slots = slots.now; rows = rows.now }) page) }
    ensures address { IfOk result (λ address.
        IsAddress (page_address config.now.base (record { slots = slots.now; rows = rows.now }) page) address) }
    ensures authority { IfOk result (λ address. ShareAuthority config.now.base address) }
{
    page_address(alloc, config.base(), slots, rows, page)
}

/// The last page of so many triples, of which a page has at most `size`.
pub(crate) fn last_page(count: u64, size: u64) -> u64
    requires { 1 ≤ size }
    ensures { result ≡ last_page_of count size }
{
    count.div_ceil(size).max(1)
}
