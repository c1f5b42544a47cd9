// Runs over wires of scripts.
use crate::changing_shelf::ChangingShelf;
use case_rows::{Case, CaseFault};
use run_case_rows::{
    Failure, Outcome, Runs, Setup, ended_on, failure_of, push_sent, setup_of, show_of, words_of,
};
use script_wire::{Script, ScriptWire};
use std::alloc::Global;
use tpf_base::Bytes;

/// The most bytes that one send takes, where a row does not say it.
const MOST: u64 = 65536;

/// Appends a link on which this comes, and then the end.
fn push_reply(alloc: Global, reply: Vec<u8>, scripts: &mut Vec<Script>) -> Result<(), CaseFault> {
    let mut pieces = Vec::new(alloc);
    pieces.push(Bytes::from_vec(reply))?;
    Ok(scripts.push(Script {
        after: 0,
        pieces,
        ends: true,
        most: MOST as usize,
    })?)
}

/// `replies`: appends links on which a reply comes and then the end.
fn push_replies(
    alloc: Global,
    case: &mut Case<'_>,
    scripts: &mut Vec<Script>,
) -> Result<(), CaseFault> {
    for reply in case.pieces(alloc, "replies")? {
        push_reply(alloc, reply, scripts)?;
    }
    Ok(())
}

/// `pieces`: the pieces that come on a link.
fn pieces_of(alloc: Global, link: &mut Case<'_>) -> Result<Vec<Bytes>, CaseFault> {
    let mut pieces = Vec::new(alloc);
    for piece in link.pieces(alloc, "pieces")? {
        pieces.push(Bytes::from_vec(piece))?;
    }
    Ok(pieces)
}

/// `pieces`, `after`, `most`, `open`: appends a link on which these pieces come, the first one once so many links have
/// had a byte sent, and then the end unless it is `open`; one send takes at most so many bytes.
fn push_link(
    alloc: Global,
    link: &mut Case<'_>,
    scripts: &mut Vec<Script>,
) -> Result<(), CaseFault> {
    let after = link.number_if("after")?.unwrap_or(0);
    let most = link.number_if("most")?.unwrap_or(MOST) as usize;
    let ends = !link.flag("open")?;
    let pieces = pieces_of(alloc, link)?;
    scripts.push(Script {
        after,
        pieces,
        ends,
        most,
    })?;
    link.end()
}

/// `links`: appends what each of the links does.
fn push_links(
    alloc: Global,
    case: &mut Case<'_>,
    scripts: &mut Vec<Script>,
) -> Result<(), CaseFault> {
    for link in case.list(alloc, "links")?.iter_mut() {
        push_link(alloc, link, scripts)?;
    }
    Ok(())
}

/// `replies`, `links`, `wire_fails`: a wire whose links do so, those on which a reply comes and then the end first.
fn wire_of(alloc: Global, case: &mut Case<'_>) -> Result<Box<ScriptWire>, CaseFault> {
    let failure = failure_of(alloc, case, "wire_fails")?;
    let mut scripts = Vec::new(alloc);
    push_replies(alloc, case, &mut scripts)?;
    push_links(alloc, case, &mut scripts)?;
    let failing = failure.failing(alloc)?;
    Ok(Box::new(alloc, ScriptWire::new(alloc, scripts, failing))?)
}

/// What was sent on a wire of scripts.
fn sent_over(alloc: Global, wire: &ScriptWire) -> Result<String, CaseFault> {
    let mut sent = String::new(alloc);
    for i in 0..wire.links() {
        push_sent(&mut sent, wire.sent_on(i))?;
    }
    Ok(sent)
}

/// The run over a wire of scripts.
fn over_scripts<P: Runs>(
    program: &P,
    alloc: Global,
    setup: &Setup,
    wire: &mut ScriptWire,
) -> Result<Box<Outcome>, CaseFault> {
    let mut outcome = ended_on(program, alloc, setup, wire)?;
    outcome.sent = Some(sent_over(alloc, wire)?);
    Ok(outcome)
}

/// A kind of wire that rows describe.
pub trait Over {
    /// How the run over the wire ends that members of the row describe.
    fn outcome<P: Runs>(
        &self,
        program: &P,
        alloc: Global,
        case: &mut Case<'_>,
        setup: &Setup,
    ) -> Result<Box<Outcome>, CaseFault>;
}

/// The members of `run` but `seeds`, and those that describe the wire: the run over it.
pub fn shown_over<O: Over, P: Runs>(
    wire: &O,
    program: &P,
    alloc: Global,
    case: &mut Case<'_>,
) -> Result<String, CaseFault> {
    let setup = setup_of(program, alloc, case)?;
    let show = show_of(alloc, case)?;
    let outcome = wire.outcome(program, alloc, case, &setup)?;
    show.outcome(alloc, &outcome)
}

/// `replies`, `links`, `wire_fails`: a wire whose links do so.
pub struct Scripted;

impl Over for Scripted {
    fn outcome<P: Runs>(
        &self,
        program: &P,
        alloc: Global,
        case: &mut Case<'_>,
        setup: &Setup,
    ) -> Result<Box<Outcome>, CaseFault> {
        let mut wire = wire_of(alloc, case)?;
        over_scripts(program, alloc, setup, &mut wire)
    }
}

/// The run of these words over a wire of scripts, and over a shelf whose file changes.
fn over_both<P: Runs>(
    program: &P,
    alloc: Global,
    words: &[String],
    shelf: &mut ChangingShelf,
    wire: &mut ScriptWire,
) -> Result<Box<Outcome>, CaseFault> {
    let mut outcome = Outcome::new(alloc, Failure::Never, Failure::Never)?;
    program.run(alloc, words, shelf, wire, &mut outcome)?;
    outcome.sent = Some(sent_over(alloc, wire)?);
    Ok(outcome)
}

/// The run of a line over a wire of scripts, and over a shelf that has the next of these contents each time.
fn over_changing<P: Runs>(
    program: &P,
    alloc: Global,
    line: &str,
    contents: Vec<Vec<u8>>,
    wire: &mut ScriptWire,
) -> Result<Box<Outcome>, CaseFault> {
    let words = words_of(alloc, line)?;
    let mut shelf = ChangingShelf::new(contents);
    over_both(program, alloc, words.as_slice(), &mut shelf, wire)
}

/// `line`, `contents`, `replies`, `links`, `wire_fails`: how the run ends.
fn changing_outcome<P: Runs>(
    program: &P,
    alloc: Global,
    case: &mut Case<'_>,
) -> Result<Box<Outcome>, CaseFault> {
    let line = case.text(alloc, "line")?;
    let mut wire = wire_of(alloc, case)?;
    let contents = case.pieces(alloc, "contents")?;
    over_changing(program, alloc, line.as_str(), contents, &mut wire)
}

/// `line`, `contents`, `replies`, `links`, `wire_fails`: the run over such a wire, and over a shelf with the file `d`, which
/// has the next of these contents each time that it is found.
pub fn changing<P: Runs>(
    program: &P,
    alloc: Global,
    case: &mut Case<'_>,
) -> Result<String, CaseFault> {
    let show = show_of(alloc, case)?;
    let outcome = changing_outcome(program, alloc, case)?;
    show.outcome(alloc, &outcome)
}
