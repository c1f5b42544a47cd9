//! General facts on lists, Booleans and options, which the proofs of the crates above cite. It holds no
//! code. What the kit's library has is cited from there and does not stand here again.
//!
//! A function names a law that its proof needs, as one whose output is only added to:
//!
//! ```rust
//! #[tactic(auto, using(list_laws::proofs::Begins::same_begins, list_laws::proofs::Begins::more_begins))]
//! fn push_one(b: u8, out: &mut Vec<u8>) -> Result<(), OutOfMemory>
//!     ensures ok { OnOk result (out.new.items ≡ out.old.items ++ b ∷ []) }
//!     ensures front { Begins out.old.items out.new.items }
//! {
//!     out.push(b)?;
//!     Ok(())
//! }
//! ```
#![tactic(auto)]
