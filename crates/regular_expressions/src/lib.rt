//! Regular expressions as definitions: which texts match one, and what is left of one after a
//! letter. Readers are proved against them; nothing here runs.
//!
//! A call of a law hands its statement to the proof of the caller, here that kinds of token are a
//! query or have a first fault:
//!
//! ```rust
//! pub fn one_fault()
//!     ensures { OneFault }
//! {
//!     matching_is_decided();
//!     beginning_is_decided();
//! }
//! ```
#![tactic(auto)]
