// Wires of scripts.
use case_rows::{Case, CaseFault};
use script_wire::{Script, ScriptWire};
use std::alloc::Global;
use tpf_base::{Bytes, Failing, OutOfMemory};

/// Adds a piece of these bytes.
pub fn add_piece(alloc: Global, bytes: &[u8], pieces: &mut Vec<Bytes>) -> Result<(), OutOfMemory> {
    let piece = Bytes::copy(alloc, bytes)?;
    pieces.push(piece)?;
    Ok(())
}

/// A wire with a link for each script, which fails these calls.
pub fn scripted(
    alloc: Global,
    scripts: Vec<Script>,
    failing: Failing,
) -> Result<Box<ScriptWire>, OutOfMemory> {
    Ok(Box::new(alloc, ScriptWire::new(alloc, scripts, failing))?)
}

/// `fails`, `dials`: the calls of the wire with these numbers fail, or each dial whose number is so many times another.
pub fn failing_of(alloc: Global, case: &mut Case<'_>) -> Result<Failing, CaseFault> {
    match case.number_if("dials")? {
        Some(each) => Ok(Failing::Dials(each)),
        None => Ok(Failing::At(case.numbers(alloc, "fails")?)),
    }
}
