// What a server says of its fragments: its configuration, and the addresses of pages.
use crate::addresses::{address_of, given};
use crate::slots::rows_of;
use case_rows::{Case, CaseFault, word_text};
use case_slots::slots_of;
use hydra_controls::{Config, address};
use std::alloc::Global;
use text_base::Text;

/// `base`, `page_size`: the configuration, if they are one.
fn config_if(alloc: Global, case: &mut Case<'_>) -> Result<Option<Config>, CaseFault> {
    let size = case.number("page_size")?;
    let base = address_of(alloc, case, "base")?;
    Ok(Config::new(base, size))
}

/// `base`, `page_size`: the configuration.
pub fn config_of(alloc: Global, case: &mut Case<'_>) -> Result<Config, CaseFault> {
    match config_if(alloc, case)? {
        Some(config) => Ok(config),
        None => Err(CaseFault::Row),
    }
}

/// A configuration as text.
fn config_text(alloc: Global, config: &Config) -> Result<String, CaseFault> {
    Ok(format!(in alloc; "{} {}", config.base().text(), config.page_size())?)
}

/// `base`, `page_size`: the configuration.
pub fn config(alloc: Global, case: &mut Case<'_>) -> Result<String, CaseFault> {
    match config_if(alloc, case)? {
        Some(config) => config_text(alloc, &config),
        None => word_text(alloc, "none"),
    }
}

/// Appends whether each of the paths is that of a reload.
fn push_all_asked(config: &Config, asked: &[String], out: &mut String) -> Result<(), CaseFault> {
    for path in asked {
        let is_reload = config.is_reload(path.as_bytes());
        out.push_str(if is_reload { "yes " } else { "no " })?;
    }
    Ok(())
}

/// Whether each of the paths is that of a reload, and a configuration as text.
fn asked_text(alloc: Global, config: &Config, asked: &[String]) -> Result<String, CaseFault> {
    let text = config_text(alloc, config)?;
    let mut out = String::new(alloc);
    push_all_asked(config, asked, &mut out)?;
    out.push_str(text.as_str())?;
    Ok(out)
}

/// `base`, `page_size`, `path`: the configuration, where a reload has a path of its own; nothing, where this is no such
/// path.
fn reload_config(alloc: Global, case: &mut Case<'_>) -> Result<Option<Config>, CaseFault> {
    let path = case.text_if(alloc, "path")?;
    let config = config_of(alloc, case)?;
    match path {
        Some(path) => Ok(config.with_reload(Text::from_string(path))),
        None => Ok(Some(config)),
    }
}

/// `base`, `page_size`, `path`, `asked`: whether each of the paths that are asked for is that of a reload, and the
/// configuration, where a reload has a path of its own; `none`, where this is no such path.
pub fn reload(alloc: Global, case: &mut Case<'_>) -> Result<String, CaseFault> {
    let asked = case.texts(alloc, "asked")?;
    match reload_config(alloc, case)? {
        Some(config) => asked_text(alloc, &config, asked.as_slice()),
        None => word_text(alloc, "none"),
    }
}

/// Whether the rows of a request were read before, and are by this configuration, and the configuration.
fn reading_text(alloc: Global, before: bool, config: &Config) -> Result<String, CaseFault> {
    let after = config.reads_rows();
    let text = config_text(alloc, config)?;
    Ok(format!(in alloc; "{before} {after} {text}")?)
}

/// `base`, `page_size`: whether the rows of a request are read, first as a configuration is made and then with rows,
/// and the configuration.
pub fn reads_rows(alloc: Global, case: &mut Case<'_>) -> Result<String, CaseFault> {
    let made = config_of(alloc, case)?;
    let before = made.reads_rows();
    reading_text(alloc, before, &made.with_rows())
}

/// `subject`, `predicate`, `object`, `rows`: the address of the page with this number.
fn address_in(
    alloc: Global,
    case: &mut Case<'_>,
    config: &Config,
    page: u64,
) -> Result<String, CaseFault> {
    if page == 0 {
        return Err(CaseFault::Row);
    }
    let slots = slots_of(alloc, case)?;
    let rows = rows_of(alloc, case)?;
    given(alloc, address(alloc, config, &slots, &rows, page))
}

/// `base`, `page_size`, `subject`, `predicate`, `object`, `rows`, `page`: the address of the page.
pub fn fragment_address(alloc: Global, case: &mut Case<'_>) -> Result<String, CaseFault> {
    let page = case.number("page")?;
    let config = config_of(alloc, case)?;
    address_in(alloc, case, &config, page)
}
