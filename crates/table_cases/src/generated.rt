// Generated data: the text that is written, and what is left at a fault.
use case_rows::{Case, CaseFault, number_text, word_text};
use generated_data::write_generated;
use std::alloc::Global;
use std::str;
use tpf_base::{Failing, Fault, MemSink};

/// Writes the data of so many persons.
fn write(alloc: Global, persons: u32, sink: &mut MemSink) -> Result<(), Fault> {
    write_generated(alloc, persons, sink)
}

/// `persons`: how many persons.
fn persons_of(case: &mut Case<'_>) -> Result<u32, CaseFault> {
    match u32::try_from(case.number("persons")?) {
        Ok(persons) => Ok(persons),
        Err(_) => Err(CaseFault::Row),
    }
}

/// The whole text of so many persons.
fn whole(alloc: Global, persons: u32) -> Result<MemSink, CaseFault> {
    let mut sink = MemSink::new(alloc, Failing::Never);
    match write(alloc, persons, &mut sink) {
        Ok(()) => Ok(sink),
        Err(_) => Err(CaseFault::Differs),
    }
}

/// A text, or how many lines it has.
fn shown(alloc: Global, taken: &[u8], show: &str) -> Result<String, CaseFault> {
    let text = str::from_utf8(taken).unwrap_or("no text");
    match show {
        "text" => word_text(alloc, text),
        "lines" => number_text(alloc, text.lines().count() as u64),
        _ => Err(CaseFault::Row),
    }
}

/// `persons`, `show`: the `text` of their data, or how many `lines` it has.
pub fn generated(alloc: Global, case: &mut Case<'_>) -> Result<String, CaseFault> {
    let persons = persons_of(case)?;
    let show = case.text(alloc, "show")?;
    let sink = whole(alloc, persons)?;
    shown(alloc, sink.taken(), show.as_str())
}

/// Whether writing over a sink that takes so many bytes fails, and leaves the front of the text that it takes.
fn is_cut(alloc: Global, persons: u32, most: usize, whole: &[u8]) -> bool {
    let mut sink = MemSink::new(alloc, Failing::AfterBytes(most as u64));
    let result = write(alloc, persons, &mut sink);
    let taken = sink.taken();
    result == Err(Fault::Failed) && taken.len() == most && whole.starts_with(taken)
}

/// Over how many sinks, which take fewer bytes than the whole text has, writing does so.
fn cuts(alloc: Global, persons: u32, whole: &[u8]) -> Result<usize, CaseFault> {
    for most in 0..whole.len() {
        if !is_cut(alloc, persons, most, whole) {
            return Err(CaseFault::Differs);
        }
    }
    Ok(whole.len())
}

/// `persons`: over how many sinks, which take so many bytes and then fail, writing fails and leaves the front of the
/// text that they take.
pub fn cut(alloc: Global, case: &mut Case<'_>) -> Result<String, CaseFault> {
    let persons = persons_of(case)?;
    let whole = whole(alloc, persons)?;
    number_text(alloc, cuts(alloc, persons, whole.taken())? as u64)
}

/// A sink whose call with this number fails.
fn failing_at(alloc: Global, call: u64) -> Result<MemSink, CaseFault> {
    let calls = Vec::from_slice(alloc, &[call])?;
    Ok(MemSink::new(alloc, Failing::At(calls)))
}

/// Whether a sink whose call with this number fails has the whole text, or a front of it where writing fails.
fn is_front(alloc: Global, persons: u32, call: u64, whole: &[u8]) -> Result<bool, CaseFault> {
    let mut sink = failing_at(alloc, call)?;
    let result = write(alloc, persons, &mut sink);
    let taken = sink.taken();
    match result {
        Ok(()) => Ok(taken == whole),
        Err(Fault::Failed) => Ok(taken.len() < whole.len() && whole.starts_with(taken)),
        Err(Fault::OutOfMemory) => Err(CaseFault::OutOfMemory),
    }
}

/// Fails where one of the first so many sinks has anything else.
fn are_fronts(alloc: Global, persons: u32, most: u64, whole: &[u8]) -> Result<(), CaseFault> {
    for call in 0..most {
        if !is_front(alloc, persons, call.saturating_add(1), whole)? {
            return Err(CaseFault::Differs);
        }
    }
    Ok(())
}

/// `persons`, `calls`: over how many sinks, of which the first call fails, the second, and so on, writing succeeds with
/// the whole text, or fails and leaves a front of it.
pub fn calls(alloc: Global, case: &mut Case<'_>) -> Result<String, CaseFault> {
    let persons = persons_of(case)?;
    let most = case.number("calls")?;
    let whole = whole(alloc, persons)?;
    are_fronts(alloc, persons, most, whole.taken())?;
    number_text(alloc, most)
}
