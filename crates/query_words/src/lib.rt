//! The tokens of a query, each with what it says: names, texts with their escapes resolved, and
//! the words of the grammar.
//!
//! From the bytes of a text to its characters, to its tokens, to what they say; `kinds_of` is what the grammar sees of them:
//!
//! ```rust
//! let chars = characters(alloc, text_of(text)?)?;
//! let pieces = pieces_of(alloc, chars.as_slice())?;
//! Ok(words_of(alloc, chars.as_slice(), pieces.as_slice())?)
//! ```
#![tactic(auto)]

pub mod text;
pub mod word;
