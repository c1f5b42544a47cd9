// What is told of a conversation. Memory may run out, and else nothing fails.
use case_rows::CaseFault;
use script_wire::ScriptWire;
use std::str;
use tpf_base::OutOfMemory;

/// Adds what was sent on a link: all of it, or the paths alone that were asked for.
fn add_sent(sent: &str, whole: bool, told: &mut String) -> Result<(), OutOfMemory> {
    if whole {
        return Ok(told.push_str(sent)?);
    }
    for word in sent.split(' ') {
        if word.starts_with('/') {
            told.push_str(word)?;
        }
    }
    Ok(())
}

/// Adds what was sent on each link: all of it, or the paths alone that were asked for.
pub fn add_requests(wire: &ScriptWire, whole: bool, told: &mut String) -> Result<(), OutOfMemory> {
    for link in 0..wire.links() {
        let sent = str::from_utf8(wire.sent_on(link)).unwrap_or("no text");
        told.push_str(" [")?;
        add_sent(sent, whole, told)?;
        told.push(']')?;
    }
    Ok(())
}

/// What is told, as an answer.
pub fn answer_of(told: Result<String, OutOfMemory>) -> Result<String, CaseFault> {
    match told {
        Ok(told) => Ok(told),
        Err(_) => Err(CaseFault::OutOfMemory),
    }
}
