//! The text of a result, a piece at a time (SPARQL 1.1 Query Results JSON Format).
//!
//! A result of two rows. After each piece what is pending goes to a sink (`give` calls `ResultWriter::give`), so that the
//! first row is to be seen before the second is found:
//!
//! ```rust
//! let mut writer = ResultWriter::begin(alloc, query)?;
//! give(&mut writer, out, lengths)?;
//! writer.row(&row_of(alloc, "http://e/1", Some("x"))?)?;
//! give(&mut writer, out, lengths)?;
//! writer.row(&row_of(alloc, "http://e/2", None)?)?;
//! give(&mut writer, out, lengths)?;
//! writer.finish()?;
//! give(&mut writer, out, lengths)
//! ```
#![tactic(auto)]

mod columns;
pub mod laws;
mod tokens;
mod writer;

pub use writer::{ResultWriter, result_text};
