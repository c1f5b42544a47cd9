// Runs over a wire in one process.
use crate::door::WithDoor;
use crate::faults::{Numbered, failures};
use crate::wires::Over;
use case_rows::{Case, CaseFault};
use data_servers::server_of_file;
use fragment_server::{FragmentConnection, FragmentServer};
use hydra_controls::Config;
use loop_wire::{Behind, LoopWire, Several};
use memory_outside::MemShelf;
use run_case_rows::{Failure, Outcome, Runs, Setup, ended_on, failure_of, push_sent};
use std::alloc::Global;
use template_fill::WebAddress;
use tpf_base::{Bytes, Text, USUAL_PAGE};
use triple_table::Choice;

/// What was sent on a wire in one process.
pub fn sent_over<B: Behind<FragmentConnection>>(
    alloc: Global,
    wire: &LoopWire<FragmentConnection, B>,
) -> Result<String, CaseFault> {
    let mut sent = String::new(alloc);
    for i in 0..wire.links() {
        push_sent(&mut sent, wire.sent_on(i))?;
    }
    Ok(sent)
}

/// The configuration of a server at this address with so many triples a page, which reads rows or passes them over.
fn config_of(alloc: Global, base: &str, page: u64, rows: bool) -> Result<Config, CaseFault> {
    let Ok(base) = WebAddress::read(alloc, base) else {
        return Err(CaseFault::Row);
    };
    match Config::new(base, page) {
        Some(config) => Ok(if rows { config.with_rows() } else { config }),
        None => Err(CaseFault::Row),
    }
}

/// The server of the file `d` of this shelf at this address.
fn server_on(
    alloc: Global,
    shelf: &mut MemShelf,
    base: &str,
    page: u64,
    rows: bool,
) -> Result<Box<FragmentServer>, CaseFault> {
    let config = config_of(alloc, base, page, rows)?;
    match server_of_file(alloc, shelf, "d", &Choice::DefaultGraph, config) {
        Ok(server) => Ok(Box::new(alloc, server)?),
        Err(_) => Err(CaseFault::Row),
    }
}

/// A wire in one process to a server: its seed, how many triples a page of the server has, and whether it reads rows.
#[derive(Clone, Copy)]
struct Form {
    seed: u64,
    page: u64,
    rows: bool,
}

/// `page`, `rows`, `seed`: such a wire.
fn form_of(case: &mut Case<'_>) -> Result<Form, CaseFault> {
    Ok(Form {
        seed: case.number_if("seed")?.unwrap_or(0),
        page: case.number_if("page")?.unwrap_or(USUAL_PAGE),
        rows: case.flag("rows")?,
    })
}

/// The server of the file `d`.
fn server_of(alloc: Global, setup: &Setup, form: Form) -> Result<Box<FragmentServer>, CaseFault> {
    let mut shelf = setup.shelf(alloc, Failure::Never)?;
    server_on(
        alloc,
        &mut shelf,
        "http://localhost/data",
        form.page,
        form.rows,
    )
}

/// A wire of this form to the server of the file `d`, whose calls fail so.
fn loop_of(
    alloc: Global,
    setup: &Setup,
    form: Form,
    failure: Failure,
) -> Result<Box<WithDoor<LoopWire<FragmentConnection>>>, CaseFault> {
    let failing = failure.failing(alloc)?;
    let server = server_of(alloc, setup, form)?;
    let wire = LoopWire::new(alloc, Box::into_inner(server), form.seed, failing);
    Ok(Box::new(alloc, WithDoor::new(wire))?)
}

/// The run over a wire in one process.
fn over_loop<P: Runs, B: Behind<FragmentConnection>>(
    program: &P,
    alloc: Global,
    setup: &Setup,
    wire: &mut WithDoor<LoopWire<FragmentConnection, B>>,
) -> Result<Box<Outcome>, CaseFault>
where
    <B as Behind<FragmentConnection>>::Servers: Drop,
{
    let mut outcome = ended_on(program, alloc, setup, wire)?;
    outcome.sent = Some(sent_over(alloc, &wire.wire)?);
    Ok(outcome)
}

/// The run over a wire of this form, whose calls fail so.
fn ended_over<P: Runs>(
    program: &P,
    alloc: Global,
    setup: &Setup,
    form: Form,
    failure: Failure,
) -> Result<Box<Outcome>, CaseFault> {
    let mut wire = loop_of(alloc, setup, form, failure)?;
    over_loop(program, alloc, setup, &mut wire)
}

/// `page`, `rows`, `seed`, `wire_fails`: a wire in one process, with this seed, to a server of the file `d` at
/// `http://localhost/data` with so many triples a page, which reads rows where the row has `rows`.
pub struct Looped;

impl Over for Looped {
    fn outcome<P: Runs>(
        &self,
        program: &P,
        alloc: Global,
        case: &mut Case<'_>,
        setup: &Setup,
    ) -> Result<Box<Outcome>, CaseFault> {
        let form = form_of(case)?;
        let failure = failure_of(alloc, case, "wire_fails")?;
        ended_over(program, alloc, setup, form, failure)
    }
}

/// The runs over a wire of this form, each with the number of the call that fails.
impl Numbered for Form {
    fn outcome<P: Runs>(
        &self,
        program: &P,
        alloc: Global,
        setup: &Setup,
        number: u64,
    ) -> Result<Box<Outcome>, CaseFault> {
        ended_over(program, alloc, setup, *self, Failure::At(number))
    }
}

/// `page`, `rows`, `seed`, `calls`, and the members of `failures`: whether `all`, `some` or `none` of so many runs over
/// such a wire failed, of which the first one's first call fails, the second one's second call, and so on.
pub fn each_call<P: Runs>(
    program: &P,
    alloc: Global,
    case: &mut Case<'_>,
) -> Result<String, CaseFault> {
    let form = form_of(case)?;
    let calls = case.number("calls")?;
    failures(&form, program, alloc, case, 1, calls)
}

/// A shelf with one file, `d`, which holds these bytes.
fn shelf_with(alloc: Global, bytes: Vec<u8>) -> Result<MemShelf, CaseFault> {
    let Ok(name) = Text::copy(alloc, "d") else {
        return Err(CaseFault::OutOfMemory);
    };
    let mut files = Vec::new(alloc);
    files.push((name, Bytes::from_vec(bytes)))?;
    Ok(MemShelf::new(alloc, files, Failure::Never.failing(alloc)?))
}

/// `at`, `data`, `page`: the server of these data at this address.
fn server_in(alloc: Global, case: &mut Case<'_>) -> Result<Box<FragmentServer>, CaseFault> {
    let base = case.text(alloc, "at")?;
    let page = case.number_if("page")?.unwrap_or(USUAL_PAGE);
    let bytes = case.bytes(alloc, "data")?;
    case.end()?;
    let mut shelf = shelf_with(alloc, bytes)?;
    server_on(alloc, &mut shelf, base.as_str(), page, false)
}

/// `servers`: each of the servers.
fn servers_in(alloc: Global, case: &mut Case<'_>) -> Result<Vec<FragmentServer>, CaseFault> {
    let mut servers = Vec::new(alloc);
    for server in case.list(alloc, "servers")?.iter_mut() {
        servers.push(Box::into_inner(server_in(alloc, server)?))?;
    }
    Ok(servers)
}

/// `servers`, `seed`, `wire_fails`: a wire in one process, with this seed, to servers each of which serves its `data`
/// `at` an address, with so many triples a `page`.
pub struct Together;

impl Over for Together {
    fn outcome<P: Runs>(
        &self,
        program: &P,
        alloc: Global,
        case: &mut Case<'_>,
        setup: &Setup,
    ) -> Result<Box<Outcome>, CaseFault> {
        let seed = case.number_if("seed")?.unwrap_or(0);
        let failing = failure_of(alloc, case, "wire_fails")?.failing(alloc)?;
        let servers = servers_in(alloc, case)?;
        let wire: LoopWire<FragmentConnection, Several> = LoopWire::to_servers(
            alloc, servers, seed, failing,
        );
        over_loop(program, alloc, setup, &mut WithDoor::new(wire))
    }
}
