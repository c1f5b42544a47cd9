// Where pages come from.
use crate::listed::listed_page;
use crate::served::served_page;
use case_rows::CaseFault;
use fragment_page::Page;
use std::alloc::Global;
use template_fill::WebAddress;
use tpf_server::Server;

/// The pages of several servers: a template for the form of each, and the text of all pages.
#[derive(Clone, Copy)]
pub struct PageTexts<'a> {
    pub templates: &'a [String],
    pub text: &'a str,
}

/// Where pages come from.
#[derive(Clone, Copy)]
pub enum Source<'a> {
    /// A server in memory gives them.
    Served(&'a Server),
    /// They stand in a text.
    Listed(PageTexts<'a>),
}

/// The pages that there are.
#[derive(Clone, Copy)]
pub struct Pages<'a> {
    pub source: Source<'a>,
    /// The count that each page says in place of its own, if there is one.
    pub count: Option<u64>,
}

/// The page at an address.
pub fn page_at(alloc: Global, pages: Pages<'_>, address: &WebAddress) -> Result<Page, CaseFault> {
    let source = pages.source;
    let found = match source {
        Source::Served(server) => served_page(alloc, server, address),
        Source::Listed(texts) => listed_page(alloc, texts.text, address),
    };
    let mut page = found?;
    if let Some(count) = pages.count {
        page.count = count;
    }
    Ok(page)
}
