// Pages that stand in a text, and forms of their servers.
use case_rows::CaseFault;
use fragment_page::{Page, TripleList};
use nquads_text::read_all;
use rdf_terms::Triple;
use request_plan::FormList;
use std::alloc::Global;
use template_fill::{Form, Template, WebAddress};
use text_base::{Text, all_three};

/// What a page of a fragment without triples has behind its address.
const NOTHING: &str = "0 none\n";

/// A template for the form of a page, which no evaluation asks for.
const ANY: &str = "http://c/d{?s,p,o}";

/// What a text of pages has behind an address.
fn behind<'a>(text: &'a str, address: &str) -> &'a str {
    for page in text.split("\n\n") {
        if let Some((at, rest)) = page.split_once(' ') {
            if at == address {
                return rest;
            }
        }
    }
    NOTHING
}

/// The triples of N-Quads text.
fn triples_of(alloc: Global, text: &str) -> Result<Vec<Triple>, CaseFault> {
    let Ok(quads) = read_all(alloc, text.as_bytes(), 100) else {
        return Err(CaseFault::Row);
    };
    Ok(quads.into_iter().map(|quad| quad.triple).collect(alloc)?)
}

/// The address of the next page, or nothing for `none`.
fn next_of(alloc: Global, text: &str) -> Result<Option<WebAddress>, CaseFault> {
    if text == "none" {
        return Ok(None);
    }
    match WebAddress::read(alloc, text) {
        Ok(next) => Ok(Some(next)),
        Err(_) => Err(CaseFault::Row),
    }
}

/// The form of a template with the names `s`, `p` and `o`.
fn form_of(alloc: Global, template: &str) -> Result<Form, CaseFault> {
    let Ok(template) = Template::read(alloc, template) else {
        return Err(CaseFault::Row);
    };
    let names = all_three(
        Text::copy(alloc, "s"),
        Text::copy(alloc, "p"),
        Text::copy(alloc, "o"),
    );
    match names {
        Ok((subject, predicate, object)) => Ok(Form {
            template,
            subject,
            predicate,
            object,
        }),
        Err(_) => Err(CaseFault::OutOfMemory),
    }
}

/// The page with this count, whose next page and triples stand in texts.
fn page_of(alloc: Global, count: u64, next: &str, triples: &str) -> Result<Page, CaseFault> {
    let triples = triples_of(alloc, triples)?;
    let next = next_of(alloc, next)?;
    let form = form_of(alloc, ANY)?;
    Ok(Page {
        triples: TripleList::from_vec(triples),
        count,
        next,
        form,
        version: None,
    })
}

/// The page that a text has at an address: that of a fragment without triples, where the text does not have it.
///
/// In the text an empty line stands behind each page. A page has a line with its address, the count of its fragment, and
/// the address of the next page or `none`; then its triples as N-Quads.
pub fn listed_page(alloc: Global, text: &str, address: &WebAddress) -> Result<Page, CaseFault> {
    let Some((head, triples)) = behind(text, address.text()).split_once('\n') else {
        return Err(CaseFault::Row);
    };
    let Some((count, next)) = head.split_once(' ') else {
        return Err(CaseFault::Row);
    };
    match count.parse::<u64>() {
        Ok(count) => page_of(alloc, count, next, triples),
        Err(_) => Err(CaseFault::Row),
    }
}

/// The forms of these templates, one for each server.
pub fn form_list(alloc: Global, templates: &[String]) -> Result<FormList, CaseFault> {
    let mut forms = Vec::new(alloc);
    for template in templates {
        forms.push(form_of(alloc, template.as_str())?)?;
    }
    if forms.is_empty() {
        return Err(CaseFault::Row);
    }
    Ok(FormList::from_vec(forms))
}
