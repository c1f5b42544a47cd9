// What is said at the end of a run.
ghost use Rattle.data_files.specs.Kept.{KeepsSink};
ghost use Rattle.command_endings.specs.Statuses.{code_of};
ghost use Rattle.command_endings.specs.Lines.{SaysLine};
ghost use Rattle.command_endings.specs.Endings.{Says, data_status, data_line, query_status, query_line, client_status, client_line, reply_line, made_status, made_line, fault_status, fault_line, counted_status, counted_line, answer_status, answer_line, service_status, service_line};
ghost use Rattle.command_endings.specs.EndingViews.{ending_view};

use crate::ending::Ending;
use crate::lines::{
    write_counts, write_fault, write_line, write_named, write_number, write_versions,
};
use crate::names::{group_why_text, page_text, why_text};
use crate::status::Status;
use answer_faults::AnswerFault;
use data_files::{DataFault, QueryFileFault};
use http_wire::ReplyFault;
use serve_command::ServiceFault;
use std::alloc::Global;
use tpf_base::{Fault, Sink};
use tpf_client::{ClientFault, Report};

/// Says why the data of a file are not served.
fn say_data<E: Sink>(alloc: Global, err: &mut E, name: &str, fault: &DataFault) -> Status
    ensures says { SaysLine (code_of result) (data_status fault.now) (data_line name.now fault.now)
        (E.state err.old) (E.state err.new) }
    ensures keeps { KeepsSink (E.state err.old) (E.state err.new) }
{
    match fault {
        DataFault::TooLong => write_line(err, b"data: too long\n", Status::Data),
        DataFault::Bad { line, why } => {
            write_fault(
                alloc,
                err,
                b"data: line ",
                *line,
                why_text(*why),
                Status::Data,
            )
        }
        DataFault::GenidClash(label) => {
            write_named(
                alloc,
                err,
                b"data: genid ",
                label.as_str().as_bytes(),
                Status::Data,
            )
        }
        DataFault::TooMany => write_line(err, b"data: too many\n", Status::Data),
        DataFault::File => write_named(alloc, err, b"file: ", name.as_bytes(), Status::File),
        DataFault::OutOfMemory => write_line(err, b"memory\n", Status::Memory),
    }
}

/// Says why the query of a file is not read.
fn say_query<E: Sink>(alloc: Global, err: &mut E, name: &str, fault: QueryFileFault) -> Status
    ensures says { SaysLine (code_of result) (query_status fault) (query_line name.now fault)
        (E.state err.old) (E.state err.new) }
    ensures keeps { KeepsSink (E.state err.old) (E.state err.new) }
{
    match fault {
        QueryFileFault::Bad { at, why } => {
            write_fault(
                alloc,
                err,
                b"query: byte ",
                at as u64,
                group_why_text(why),
                Status::Query,
            )
        }
        QueryFileFault::File => write_named(alloc, err, b"file: ", name.as_bytes(), Status::File),
        QueryFileFault::OutOfMemory => write_line(err, b"memory\n", Status::Memory),
    }
}

/// Says why a reply is refused.
fn say_reply<E: Sink>(alloc: Global, err: &mut E, fault: ReplyFault) -> Status
    ensures says { SaysLine (code_of result) 6 (reply_line fault) (E.state err.old) (E.state err.new) }
    ensures keeps { KeepsSink (E.state err.old) (E.state err.new) }
{
    match fault {
        ReplyFault::Head => write_line(err, b"reply: head\n", Status::Reply),
        ReplyFault::Status(status) => {
            write_number(
                alloc,
                err,
                b"reply: status ",
                u64::from(status),
                Status::Reply,
            )
        }
        ReplyFault::MediaType => write_line(err, b"reply: media type\n", Status::Reply),
        ReplyFault::Coding => write_line(err, b"reply: coding\n", Status::Reply),
        ReplyFault::Framing => write_line(err, b"reply: framing\n", Status::Reply),
        ReplyFault::TooLong => write_line(err, b"reply: too long\n", Status::Reply),
    }
}

/// Says why a call over a wire ended.
fn say_client<E: Sink>(alloc: Global, err: &mut E, fault: &ClientFault) -> Status
    ensures says { SaysLine (code_of result) (client_status fault.now) (client_line fault.now)
        (E.state err.old) (E.state err.new) }
    ensures keeps { KeepsSink (E.state err.old) (E.state err.new) }
{
    match fault {
        ClientFault::Exchange => write_line(err, b"exchange: failed\n", Status::Exchange),
        ClientFault::Stalled => write_line(err, b"exchange: stalled\n", Status::Exchange),
        ClientFault::Cut { .. } => write_line(err, b"exchange: cut\n", Status::Exchange),
        ClientFault::Reply { fault, .. } => say_reply(alloc, err, *fault),
        ClientFault::Page { fault, .. } => {
            write_named(alloc, err, b"reply: ", page_text(*fault), Status::Reply)
        }
        ClientFault::Changed(first, other) => write_versions(alloc, err, *first, *other),
        ClientFault::Budget(n) => write_number(alloc, err, b"budget: ", *n, Status::Budget),
        ClientFault::Sink => write_line(err, b"sink\n", Status::Output),
        ClientFault::OutOfMemory => write_line(err, b"memory\n", Status::Memory),
    }
}

/// Says why a query has no whole answer.
fn say_fault<E: Sink>(
    alloc: Global,
    err: &mut E,
    name: &str,
    query: &str,
    fault: &AnswerFault,
) -> Status
    ensures says { SaysLine (code_of result) (fault_status fault.now) (fault_line name.now query.now fault.now)
        (E.state err.old) (E.state err.new) }
    ensures keeps { KeepsSink (E.state err.old) (E.state err.new) }
{
    match fault {
        AnswerFault::Data(fault) => say_data(alloc, err, name, fault),
        AnswerFault::Query(fault) => say_query(alloc, err, query, *fault),
        AnswerFault::Client(fault) => say_client(alloc, err, fault),
    }
}

/// Says what came of a query.
fn say_answer<E: Sink>(
    alloc: Global,
    err: &mut E,
    name: &str,
    query: &str,
    answer: &Result<Report, AnswerFault>,
) -> Status
    ensures says { SaysLine (code_of result) (answer_status answer.now) (answer_line name.now query.now answer.now)
        (E.state err.old) (E.state err.new) }
    ensures keeps { KeepsSink (E.state err.old) (E.state err.new) }
{
    match answer {
        Ok(report) => write_counts(alloc, err, report.requests, report.rows),
        Err(fault) => say_fault(alloc, err, name, query, fault),
    }
}

/// Says what came of a service.
fn say_service<E: Sink>(
    alloc: Global,
    err: &mut E,
    name: &str,
    served: &Result<u64, ServiceFault>,
) -> Status
    ensures says { SaysLine (code_of result) (service_status served.now) (service_line name.now served.now)
        (E.state err.old) (E.state err.new) }
    ensures keeps { KeepsSink (E.state err.old) (E.state err.new) }
{
    match served {
        Ok(connections) => write_number(alloc, err, b"served ", *connections, Status::Done),
        Err(ServiceFault::Data(fault)) => say_data(alloc, err, name, fault),
        Err(ServiceFault::Wire) => write_line(err, b"wire\n", Status::Wire),
        Err(ServiceFault::Sink) => write_line(err, b"sink\n", Status::Output),
        Err(ServiceFault::OutOfMemory) => write_line(err, b"memory\n", Status::Memory),
    }
}

/// Says what came of generated data: nothing where they were written.
fn say_made<E: Sink>(err: &mut E, made: &Result<(), Fault>) -> Status
    ensures says { SaysLine (code_of result) (made_status made.now) (made_line made.now)
        (E.state err.old) (E.state err.new) }
    ensures keeps { KeepsSink (E.state err.old) (E.state err.new) }
{
    match made {
        Ok(()) => Status::Done,
        Err(Fault::Failed) => write_line(err, b"sink\n", Status::Output),
        Err(Fault::OutOfMemory) => write_line(err, b"memory\n", Status::Memory),
    }
}

/// Says what came of a query of generated data: nothing where its numbers were written.
fn say_counted<E: Sink>(
    alloc: Global,
    err: &mut E,
    query: &str,
    counted: &Result<(), AnswerFault>,
) -> Status
    ensures says { SaysLine (code_of result) (counted_status counted.now) (counted_line query.now counted.now)
        (E.state err.old) (E.state err.new) }
    ensures keeps { KeepsSink (E.state err.old) (E.state err.new) }
{
    match counted {
        Ok(()) => Status::Done,
        Err(fault) => say_fault(alloc, err, "", query, fault),
    }
}

/// Says how a run ended, and gives the exit status.
pub fn say<E: Sink>(alloc: Global, err: &mut E, ending: &Ending<'_>) -> Status
    ensures says { Says (code_of result) (ending_view ending.now) (E.state err.old) (E.state err.new) }
    ensures keeps { KeepsSink (E.state err.old) (E.state err.new) }
{
    match ending {
        Ending::Usage => write_line(
            err,
            b"usage: tpf local FILE QUERYFILE, tpf query URL QUERYFILE, tpf serve FILE --base URL, tpf make N\n",
            Status::Usage,
        ),
        Ending::NoWords => write_line(err, b"memory\n", Status::Memory),
        Ending::Answered {
            data,
            query,
            answer,
        } => say_answer(alloc, err, data, query, answer),
        Ending::Served { data, served } => say_service(alloc, err, data, served),
        Ending::Made(made) => say_made(err, made),
        Ending::Counted { query, counted } => say_counted(alloc, err, query, counted),
    }
}
