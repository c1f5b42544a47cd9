// The pages that a server in memory gives.
use case_rows::CaseFault;
use control_reader::{Page, read_page};
use http_wire::{ReplyFeed, write_request};
use request_plan::FormList;
use std::alloc::Global;
use template_fill::WebAddress;
use test_servers::BASE;
use tpf_base::{Bytes, OutOfMemory};
use tpf_server::{Connection, Server};

/// Adds the bytes that are pending, and takes them.
fn drain(
    connection: &mut Connection,
    server: &Server,
    out: &mut Vec<u8>,
) -> Result<(), OutOfMemory> {
    connection.fill(server)?;
    let n = connection.pending().len();
    out.extend_from_slice(connection.pending())?;
    connection.take(n);
    Ok(())
}

/// Feeds a request, and takes all bytes of the answer, a piece at a time.
fn converse(
    connection: &mut Connection,
    server: &Server,
    request: &[u8],
    out: &mut Vec<u8>,
) -> Result<(), OutOfMemory> {
    connection.feed(server, request)?;
    for _ in 0..20 {
        drain(connection, server, out)?;
    }
    Ok(())
}

/// Adds what the server answers for an address.
fn add_response(
    alloc: Global,
    server: &Server,
    address: &WebAddress,
    out: &mut Vec<u8>,
) -> Result<(), OutOfMemory> {
    let mut request = Vec::new(alloc);
    write_request(address.authority(), address.target(), &mut request)?;
    let mut connection = Connection::new(alloc);
    converse(&mut connection, server, request.as_slice(), out)
}

/// The body of a response.
fn body_of(alloc: Global, response: &[u8]) -> Result<Bytes, CaseFault> {
    let mut feed = ReplyFeed::new(alloc, 1000000);
    if feed.feed(response).is_err() {
        return Err(CaseFault::OutOfMemory);
    }
    match feed.take() {
        Some(reply) => Ok(reply.body),
        None => Err(CaseFault::Row),
    }
}

/// The page that the server gives for an address.
pub fn served_page(
    alloc: Global,
    server: &Server,
    address: &WebAddress,
) -> Result<Page, CaseFault> {
    let mut response = Vec::new(alloc);
    if add_response(alloc, server, address, &mut response).is_err() {
        return Err(CaseFault::OutOfMemory);
    }
    let body = body_of(alloc, response.as_slice())?;
    match read_page(alloc, body.as_slice(), address) {
        Ok(page) => Ok(page),
        Err(_) => Err(CaseFault::Row),
    }
}

/// The form of the server's start page.
pub fn start_form(alloc: Global, server: &Server) -> Result<FormList, CaseFault> {
    let Ok(start) = WebAddress::read(alloc, BASE) else {
        return Err(CaseFault::Row);
    };
    let page = served_page(alloc, server, &start);
    drop(start);
    Ok(FormList::one(alloc, page?.form))
}
