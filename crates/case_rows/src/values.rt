// What the values of members are read as.
use crate::CaseFault;
use crate::names::Names;
use crate::text::{DEPTH, push_text};
use json::Value;
use std::alloc::Global;

/// Whether there is a value, which is then `true`.
pub fn flag_of(value: Option<&Value<'_>>) -> Result<bool, CaseFault> {
    let Some(value) = value else {
        return Ok(false);
    };
    match value.as_bool() {
        Some(true) => Ok(true),
        _ => Err(CaseFault::Row),
    }
}

/// The values that a value lists.
fn values_of<'v, 'a>(value: &'v Value<'a>) -> Result<&'v [Value<'a>], CaseFault> {
    match value {
        Value::Array(values) => Ok(values.as_slice()),
        _ => Err(CaseFault::Row),
    }
}

/// The numbers that a value lists.
pub fn numbers_of(alloc: Global, value: &Value<'_>) -> Result<Vec<u64>, CaseFault> {
    let values = values_of(value)?;
    let mut numbers = Vec::new(alloc);
    for value in values {
        match value.as_u64() {
            Some(number) => numbers.push(number)?,
            None => return Err(CaseFault::Row),
        }
    }
    Ok(numbers)
}

/// The bytes that a value stands for.
pub fn bytes_of(alloc: Global, names: &Names, value: &Value<'_>) -> Result<Vec<u8>, CaseFault> {
    let mut bytes = Vec::new(alloc);
    push_text(alloc, names, value, DEPTH, &mut bytes)?;
    Ok(bytes)
}

/// The bytes that each of the values stands for that a value lists.
pub fn pieces_of(
    alloc: Global,
    names: &Names,
    value: &Value<'_>,
) -> Result<Vec<Vec<u8>>, CaseFault> {
    let values = values_of(value)?;
    let mut pieces = Vec::new(alloc);
    for value in values {
        pieces.push(bytes_of(alloc, names, value)?)?;
    }
    Ok(pieces)
}
