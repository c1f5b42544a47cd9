//! Pages of every kind compared with the fragments that are found the plain way, and the text of a result piece by piece.
#![tactic(auto)]

#[cfg(test)]
mod plain;
#[cfg(test)]
mod restricted;
#[cfg(test)]
mod results;
