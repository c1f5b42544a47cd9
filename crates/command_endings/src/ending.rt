// How a run ends.

use answer_faults::AnswerFault;
use serve_command::ServiceFault;
use tpf_base::Fault;
use tpf_client::Report;

/// How a run ends.
#[derive(Drop)]
pub enum Ending<'a> {
    /// The words are no command.
    Usage,
    /// Memory ran out while the words were read.
    NoWords,
    /// A query was asked: the names of the files of data and of the query, and what came of it.
    Answered {
        data: &'a str,
        query: &'a str,
        answer: Result<Report, AnswerFault>,
    },
    /// A file was served: its name, and what came of it.
    Served {
        data: &'a str,
        served: Result<u64, ServiceFault>,
    },
    /// Data were generated.
    Made(Result<(), Fault>),
    /// A query of generated data was asked and its numbers written: the name of the file of the query, and
    /// what came of it.
    Counted {
        query: &'a str,
        counted: Result<(), AnswerFault>,
    },
}
