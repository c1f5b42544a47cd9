// Evaluations by rows.
use crate::fault::RunFault;
use crate::federations::run_federation;
use crate::joins::run_join;
use crate::pages::{PageTexts, Pages, Source};
use crate::runs::{Pace, new_run};
use crate::seen::shown;
use bgp_core::Query;
use case_rows::{Case, CaseFault};
use pattern_parser::parse;
use std::alloc::Global;
use test_servers::server_of;
use tpf_server::Server;

/// A query over pages, how its asks are answered, and what is shown then.
#[derive(Clone, Copy)]
struct Scene<'a> {
    query: &'a Query,
    pages: Pages<'a>,
    pace: Pace<'a>,
    words: &'a [String],
}

/// What is shown with this window: of a server in memory the join is run to its end, and else the evaluation over several
/// servers.
fn shown_with(alloc: Global, scene: &Scene<'_>, window: u64) -> Result<String, CaseFault> {
    let Ok(window) = u32::try_from(window) else {
        return Err(CaseFault::Row);
    };
    let mut run = new_run(alloc, scene.pages, scene.pace);
    let source = scene.pages.source;
    let ended = match source {
        Source::Served(server) => run_join(alloc, server, scene.query, window, &mut run),
        Source::Listed(texts) => {
            run_federation(alloc, texts.templates, scene.query, window, &mut run)
        }
    };
    match ended {
        Ok(()) => shown(alloc, &mut run.seen, scene.words),
        Err(RunFault(fault)) => Err(fault),
    }
}

/// What is shown with each of the windows.
fn shown_with_each(alloc: Global, scene: &Scene<'_>, windows: &[u64]) -> Result<String, CaseFault> {
    let [first, others @ ..] = windows else {
        return Err(CaseFault::Row);
    };
    let told = shown_with(alloc, scene, *first)?;
    for window in others {
        let other = shown_with(alloc, scene, *window)?;
        if other.as_str() != told.as_str() {
            return Err(CaseFault::Differs);
        }
    }
    Ok(told)
}

/// `windows`, `show`: what is shown of a query, with each of the windows.
fn shown_of(
    alloc: Global,
    case: &mut Case<'_>,
    query: &Query,
    pages: Pages<'_>,
    pace: Pace<'_>,
) -> Result<String, CaseFault> {
    let windows = case.numbers(alloc, "windows")?;
    let words = case.texts(alloc, "show")?;
    let scene = Scene {
        query,
        pages,
        pace,
        words: words.as_slice(),
    };
    shown_with_each(alloc, &scene, windows.as_slice())
}

/// `query`: the same of the query.
fn shown_of_query(
    alloc: Global,
    case: &mut Case<'_>,
    pages: Pages<'_>,
    pace: Pace<'_>,
) -> Result<String, CaseFault> {
    let text = case.bytes(alloc, "query")?;
    match parse(alloc, text.as_slice()) {
        Ok(query) => shown_of(alloc, case, &query, pages, pace),
        Err(_) => Err(CaseFault::Row),
    }
}

/// `way`: whether a page is asked for alone, and how many are answered in a turn.
fn way_of(alloc: Global, case: &mut Case<'_>) -> Result<(bool, u32), CaseFault> {
    let way = case.text(alloc, "way")?;
    match way.as_str() {
        "one" => Ok((false, 1)),
        "all" => Ok((false, 100)),
        "alone" => Ok((true, 1)),
        _ => Err(CaseFault::Row),
    }
}

/// `count`, `way`, `order`: what is shown of the evaluation over pages from there.
fn answer_from(
    alloc: Global,
    case: &mut Case<'_>,
    source: Source<'_>,
) -> Result<String, CaseFault> {
    let count = case.number_if("count")?;
    let (is_alone, answers) = way_of(alloc, case)?;
    let order = case.numbers(alloc, "order")?;
    let pages = Pages { source, count };
    let pace = Pace {
        order: order.as_slice(),
        is_alone,
        answers,
    };
    shown_of_query(alloc, case, pages, pace)
}

/// `data`, `page`: a server of N-Quads text, with so many triples a page.
fn server_in(alloc: Global, case: &mut Case<'_>) -> Result<Server, CaseFault> {
    let page = case.number("page")?;
    let data = case.text(alloc, "data")?;
    match server_of(alloc, data.as_str(), page) {
        Ok(server) => Ok(server),
        Err(_) => Err(CaseFault::Row),
    }
}

/// `data`, `page`, `query`, `windows`, `way`, `order`, `count` if pages say it in place of their own, `show`: what is shown
/// of the join of the query over a server of the data with so many triples a page, which is the same with each of the
/// windows. In a turn all pages are asked for that there are to ask for, and `one` ask is answered or `all` of them; or one
/// page is asked for `alone` and answered. Each page comes twice, the second time as a stranger's. The order of answers has
/// places among the asks that are out, the oldest of which has place 0, and is gone through round and round; a number behind
/// the last place is the newest. Then the rows that wait are taken.
pub fn join(alloc: Global, case: &mut Case<'_>) -> Result<String, CaseFault> {
    let server = server_in(alloc, case)?;
    answer_from(alloc, case, Source::Served(&server))
}

/// `forms`, `pages`, and the rest as for a join: the same of the query over several servers, each with a template for its
/// form, whose names are `s`, `p` and `o`. The text of the pages has an empty line behind each. A page has a line with its
/// address, the count of its fragment, and the address of the next page or `none`; then its triples as N-Quads.
pub fn federation(alloc: Global, case: &mut Case<'_>) -> Result<String, CaseFault> {
    let templates = case.texts(alloc, "forms")?;
    let text = case.text(alloc, "pages")?;
    let texts = PageTexts {
        templates: templates.as_slice(),
        text: text.as_str(),
    };
    answer_from(alloc, case, Source::Listed(texts))
}
