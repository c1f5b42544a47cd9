// How runs end, and what is shown of that.
use crate::sent::{answers_in, order_in, targets_in, times};
use crate::setups::Failure;
use case_rows::{Case, CaseFault, number_text, sorted_result, word_text};
use std::alloc::Global;
use std::str;
use tpf_base::MemSink;

/// How a run ended, and what it wrote.
#[derive(Drop)]
pub struct Outcome {
    pub status: u8,
    pub out: MemSink,
    pub err: MemSink,
    /// What was sent on the wire that was left inside, or on the one that was handed in; none, where there is no such
    /// wire.
    pub sent: Option<String>,
}

impl Outcome {
    /// Before a run whose output and standard error fail so.
    pub fn new(alloc: Global, out: Failure, err: Failure) -> Result<Box<Outcome>, CaseFault> {
        let out = out.sink(alloc)?;
        match err.sink(alloc) {
            Ok(err) => {
                let outcome = Outcome {
                    status: 0,
                    out,
                    err,
                    sent: None,
                };
                Ok(Box::new(alloc, outcome)?)
            }
            Err(fault) => {
                drop(out);
                Err(fault)
            }
        }
    }

    /// Whether the run ended with this status, and said this on the standard error.
    pub fn says(&self, status: u8, line: &str) -> bool {
        self.status == status && self.err.taken() == line.as_bytes()
    }
}

/// What is to be shown of what was sent.
#[derive(Clone, Copy)]
enum Traffic {
    /// The targets of the requests.
    Targets,
    /// The answers.
    Answers,
    /// Which of two texts was sent first, and nothing where there are no two.
    Order,
}

/// What is to be shown of runs.
#[derive(Drop)]
pub struct Show {
    is_sorted: bool,
    /// Whether a wire is left inside, where the row says it.
    has_wire: Option<bool>,
    traffic: Traffic,
    count: Option<String>,
    said: Vec<String>,
    order: Vec<String>,
    /// The text of each triple of a page, where answers are shown whole.
    triples: Option<String>,
}

/// `wire`: whether one is `left` inside, or `none`.
fn has_wire_of(alloc: Global, case: &mut Case<'_>) -> Result<Option<bool>, CaseFault> {
    let Some(word) = case.text_if(alloc, "wire")? else {
        return Ok(None);
    };
    match word.as_str() {
        "left" => Ok(Some(true)),
        "none" => Ok(Some(false)),
        _ => Err(CaseFault::Row),
    }
}

/// `targets`, `answers`: what is to be shown of what was sent.
fn traffic_of(case: &mut Case<'_>) -> Result<Traffic, CaseFault> {
    if case.flag("targets")? {
        return Ok(Traffic::Targets);
    }
    if case.flag("answers")? {
        return Ok(Traffic::Answers);
    }
    Ok(Traffic::Order)
}

/// `sorted`, `count`, `said`, `wire`, `targets`, `answers`, `triples`, `order`: what is to be shown of a run.
pub fn show_of(alloc: Global, case: &mut Case<'_>) -> Result<Box<Show>, CaseFault> {
    let is_sorted = case.flag("sorted")?;
    let has_wire = has_wire_of(alloc, case)?;
    let traffic = traffic_of(case)?;
    let said = case.texts(alloc, "said")?;
    let order = case.texts(alloc, "order")?;
    let triples = case.text_if(alloc, "triples")?;
    let count = case.text_if(alloc, "count")?;
    let show = Show {
        is_sorted,
        has_wire,
        traffic,
        count,
        said,
        order,
        triples,
    };
    Ok(Box::new(alloc, show)?)
}

/// The text that was taken.
fn text_of(taken: &[u8]) -> Result<&str, CaseFault> {
    match str::from_utf8(taken) {
        Ok(text) => Ok(text),
        Err(_) => Err(CaseFault::Row),
    }
}

/// The status of a run, its output, its line on the standard error, and what it sent.
fn run_text(
    alloc: Global,
    status: u8,
    out: &str,
    err: &str,
    sent: &str,
) -> Result<String, CaseFault> {
    Ok(format!(in alloc; "{status} {out}| {err}{sent}")?)
}

impl Show {
    /// What is shown of the output.
    fn output(&self, alloc: Global, taken: &[u8]) -> Result<String, CaseFault> {
        let text = text_of(taken)?;
        if let Some(part) = &self.count {
            return number_text(alloc, times(text, part.as_str()) as u64);
        }
        if self.is_sorted {
            return sorted_result(alloc, text);
        }
        word_text(alloc, text)
    }

    /// What is shown of the standard error.
    fn error<'a>(&self, taken: &'a [u8]) -> Result<&'a str, CaseFault> {
        let text = text_of(taken)?;
        if let [front, end] = self.said.as_slice() {
            if text.starts_with(front.as_str()) && text.ends_with(end.as_str()) {
                return Ok("as said");
            }
        }
        Ok(text)
    }

    /// Whether a wire was left inside, or not, as the row says.
    fn agrees(&self, is_left: bool) -> bool {
        match self.has_wire {
            Some(has_wire) => has_wire == is_left,
            None => true,
        }
    }

    /// What is shown of what was sent, where there is a wire: the targets of requests, the answers, or which of two
    /// texts comes first.
    fn sent(&self, alloc: Global, sent: &Option<String>) -> Result<String, CaseFault> {
        let Some(sent) = sent else {
            return Ok(String::new(alloc));
        };
        match self.traffic {
            Traffic::Targets => targets_in(alloc, sent.as_str()),
            Traffic::Answers => answers_in(alloc, sent.as_str(), &self.triples),
            Traffic::Order => word_text(alloc, order_in(sent.as_str(), self.order.as_slice())),
        }
    }

    /// What is shown of a run: the status, the output, the line on the standard error, and what was sent.
    pub fn outcome(&self, alloc: Global, outcome: &Outcome) -> Result<String, CaseFault> {
        if !self.agrees(outcome.sent.is_some()) {
            return Err(CaseFault::Differs);
        }
        let err = self.error(outcome.err.taken())?;
        let out = self.output(alloc, outcome.out.taken())?;
        let sent = self.sent(alloc, &outcome.sent)?;
        run_text(alloc, outcome.status, out.as_str(), err, sent.as_str())
    }
}
