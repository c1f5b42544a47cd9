//! Members of a row that are the slots of a fragment, by the explicit forms of their terms. Programs of cases that ask for
//! fragments read them so:
//!
//! ```rust
//! let number = case.number("page")?;
//! let slots = slots_of(alloc, case)?;
//! ```
#![tactic(auto)]

mod slots;

pub use slots::{no_blank, slots_of};
