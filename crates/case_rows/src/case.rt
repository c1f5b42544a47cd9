// One row.
ghost use Rattle.std.specs.Prelude.{ℕ, ◌≡◌, ◌<◌, length, Some};

use crate::CaseFault;
use crate::answer_text::text_of_bytes;
use crate::names::Names;
use crate::values::{bytes_of, flag_of, numbers_of, pieces_of};
use json::Value;
use std::alloc::Global;

/// The members of a row that were not asked for yet.
#[derive(Drop)]
pub struct Case<'a> {
    members: Vec<(&'a str, Value<'a>)>,
    names: &'a Names,
}

/// The place of the first member with this name.
fn place_of(members: &[(&str, Value<'_>)], name: &str) -> Option<usize>
    ensures { (place : ℕ) → result ≡ Some place → place < length members.now }
{
    for place in 0..members.len() {
        if members[place].0 == name {
            return Some(place);
        }
    }
    None
}

/// The rows that a value lists.
fn list_of<'a>(
    alloc: Global,
    names: &'a Names,
    value: Value<'a>,
) -> Result<Vec<Case<'a>>, CaseFault> {
    let Value::Array(values) = value else {
        return Err(CaseFault::Row);
    };
    let mut list = Vec::new(alloc);
    for value in values {
        list.push(Case::new(value, names)?)?;
    }
    Ok(list)
}

impl<'a> Case<'a> {
    /// The row with these members, over these texts with names.
    pub(crate) fn new(row: Value<'a>, names: &'a Names) -> Result<Case<'a>, CaseFault> {
        match row {
            Value::Object(members) => Ok(Case { members, names }),
            _ => Err(CaseFault::Row),
        }
    }

    /// Takes the member out of the row, if it has it: it was asked for.
    fn take(&mut self, member: &str) -> Option<Value<'a>> {
        let Some(place) = place_of(self.members.as_slice(), member) else {
            return None;
        };
        let (_, value) = self.members.remove(place);
        Some(value)
    }

    /// Whether the row has the member.
    pub fn has(&self, member: &str) -> bool {
        place_of(self.members.as_slice(), member).is_some()
    }

    /// Whether the row has the member, which is then `true`.
    pub fn flag(&mut self, member: &str) -> Result<bool, CaseFault> {
        let value = self.take(member);
        flag_of(value.as_ref())
    }

    /// The member that is a number.
    pub fn number(&mut self, member: &str) -> Result<u64, CaseFault> {
        match self.take(member) {
            Some(value) => value.as_u64().ok_or(CaseFault::Row),
            None => Err(CaseFault::Row),
        }
    }

    /// The member that is a number, if the row has it.
    pub fn number_if(&mut self, member: &str) -> Result<Option<u64>, CaseFault> {
        if !self.has(member) {
            return Ok(None);
        }
        Ok(Some(self.number(member)?))
    }

    /// The member that is a list of numbers; none, where the row lacks it.
    pub fn numbers(&mut self, alloc: Global, member: &str) -> Result<Vec<u64>, CaseFault> {
        match self.take(member) {
            Some(value) => numbers_of(alloc, &value),
            None => Ok(Vec::new(alloc)),
        }
    }

    /// The bytes of a member: those of a string, of a list of such texts one behind the other, of `{"name": "ok"}`
    /// (the text with this name), of `{"letters": "tcf"}` (the texts whose names are these letters), of
    /// `{"hex": "ff0a"}`, of `{"times": 3, "of": TEXT}` (a text so many times), or of `{"numbers": 3, "of": TEXT}` (a
    /// text for each of the numbers 0, 1 and 2, which stands where the text has `{n}`; `"from": 1` begins with 1).
    pub fn bytes(&mut self, alloc: Global, member: &str) -> Result<Vec<u8>, CaseFault> {
        match self.take(member) {
            Some(value) => bytes_of(alloc, self.names, &value),
            None => Err(CaseFault::Row),
        }
    }

    /// The member that is a text.
    pub fn text(&mut self, alloc: Global, member: &str) -> Result<String, CaseFault> {
        text_of_bytes(self.bytes(alloc, member)?)
    }

    /// The member that is a text, if the row has it.
    pub fn text_if(&mut self, alloc: Global, member: &str) -> Result<Option<String>, CaseFault> {
        if !self.has(member) {
            return Ok(None);
        }
        Ok(Some(self.text(alloc, member)?))
    }

    /// The member that is a list of texts, as their bytes; none, where the row lacks it.
    pub fn pieces(&mut self, alloc: Global, member: &str) -> Result<Vec<Vec<u8>>, CaseFault> {
        match self.take(member) {
            Some(value) => pieces_of(alloc, self.names, &value),
            None => Ok(Vec::new(alloc)),
        }
    }

    /// The member that is a list of texts; none, where the row lacks it.
    pub fn texts(&mut self, alloc: Global, member: &str) -> Result<Vec<String>, CaseFault> {
        let pieces = self.pieces(alloc, member)?;
        let mut texts = Vec::new(alloc);
        for piece in pieces {
            texts.push(text_of_bytes(piece)?)?;
        }
        Ok(texts)
    }

    /// The member that is a list of rows; none, where the row lacks it. Each of them has to be ended.
    pub fn list(&mut self, alloc: Global, member: &str) -> Result<Vec<Case<'a>>, CaseFault> {
        match self.take(member) {
            Some(value) => list_of(alloc, self.names, value),
            None => Ok(Vec::new(alloc)),
        }
    }

    /// Succeeds where each member was asked for.
    pub fn end(&self) -> Result<(), CaseFault> {
        if self.members.is_empty() {
            Ok(())
        } else {
            Err(CaseFault::Row)
        }
    }
}
