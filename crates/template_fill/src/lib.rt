//! Terms in addresses: explicit forms, web addresses, templates and what fills them.
//!
//! The address of a page says which triple pattern is asked for, and by which rows it is restricted. Where the fragments
//! stand at `base`, that of the page with a number, for the slots and the rows of a case:
//!
//! ```rust
//! let slots = slots_of(alloc, case)?;
//! let rows = rows_of(alloc, case)?;
//! given(alloc, page_address(alloc, base, &slots, &rows, page))
//! ```
#![tactic(auto)]

mod address;
mod explicit_form;
mod fault;
mod form;
pub mod laws;
mod limits;
mod page;
mod part;
mod rows;
mod spelled;
mod template;
mod value;

pub use address::WebAddress;
pub use explicit_form::{explicit, read_explicit};
pub use fault::{AddressFault, TemplateFault, ValueFault};
pub use form::Form;
pub use laws::{
    an_address_is_one, authorities_are_hosts_and_ports, expansions_share_authority,
    explicit_forms_are_short, first_page_is_expansion, pages_are_answered, pages_share_authority,
    versions_are_valid,
};
pub use limits::{LARGEST_PAGE, LONGEST_START};
pub use page::page_address;
pub use rows::{read_row, row_length};
pub use spelled::is_written_path;
pub use template::Template;
pub use value::Value;
