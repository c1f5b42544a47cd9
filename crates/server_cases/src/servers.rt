// The server of a row.
use case_rows::CaseFault;
use hydra_controls::Config;
use std::alloc::Global;
use test_servers::{BASE, config_at};
use text_base::Text;
use tpf_server::Server;
use triple_table::Table;

/// The table of N-Quads text.
pub fn table_of(alloc: Global, text: &str) -> Result<Table, CaseFault> {
    match test_servers::table_of(alloc, text) {
        Ok(table) => Ok(table),
        Err(_) => Err(CaseFault::Row),
    }
}

/// A configuration at `http://localhost/data` with so many triples a page, which reloads at `/reload`, and which reads
/// rows or passes them over.
fn config_of(alloc: Global, page: u64, reads_rows: bool) -> Result<Config, CaseFault> {
    let Ok(config) = config_at(alloc, BASE, page) else {
        return Err(CaseFault::Row);
    };
    let path = Text::from_string(String::from_str(alloc, "/reload")?);
    match config.with_reload(path) {
        Some(config) if reads_rows => Ok(config.with_rows()),
        Some(config) => Ok(config),
        None => Err(CaseFault::Row),
    }
}

/// A server of N-Quads text, which reads rows or passes them over.
pub fn server_of(
    alloc: Global,
    data: &str,
    page: u64,
    reads_rows: bool,
) -> Result<Server, CaseFault> {
    let config = config_of(alloc, page, reads_rows)?;
    let table = table_of(alloc, data)?;
    match Server::new(alloc, table, config) {
        Ok(server) => Ok(server),
        Err(_) => Err(CaseFault::OutOfMemory),
    }
}
