// Texts with names.
use crate::CaseFault;
use json::{Scratch, Value};
use std::alloc::{AllocError, Global};

/// A text with a name.
#[derive(Drop)]
struct Named {
    name: String,
    text: String,
}

/// Texts with names.
#[derive(Drop)]
pub struct Names {
    list: Vec<Named>,
}

/// A text with a name.
fn named_text(alloc: Global, name: &str, text: &str) -> Result<Named, AllocError> {
    let name = String::from_str(alloc, name)?;
    let text = String::from_str(alloc, text)?;
    Ok(Named { name, text })
}

/// The texts that a JSON object has as its members.
fn names_of(alloc: Global, value: &Value<'_>) -> Result<Names, CaseFault> {
    let Value::Object(members) = value else {
        return Err(CaseFault::Row);
    };
    let mut list = Vec::new(alloc);
    for member in members {
        match member.1.as_str() {
            Some(text) => list.push(named_text(alloc, member.0, text)?)?,
            None => return Err(CaseFault::Row),
        }
    }
    Ok(Names { list })
}

impl Names {
    /// The texts with names that stand in the text of a JSON object.
    pub fn read(alloc: Global, text: &str) -> Result<Names, CaseFault> {
        let mut scratch = Scratch::new(alloc);
        match Value::parse(alloc, text, &mut scratch) {
            Ok(value) => names_of(alloc, &value),
            Err(_) => Err(CaseFault::Row),
        }
    }

    /// The text with a name, if there is one.
    pub fn find(&self, name: &str) -> Option<&str> {
        for named in &self.list {
            if named.name.as_str() == name {
                return Some(named.text.as_str());
            }
        }
        None
    }
}
