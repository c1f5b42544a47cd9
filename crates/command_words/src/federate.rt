// The words of a query over several servers.
ghost use Rattle.std.specs.Prelude.{◌≡◌, IfOk, option_map};
ghost use Rattle.std.specs.List.{list_any};
ghost use Rattle.command_words.specs.Apps.{found_in};
ghost use Rattle.command_words.specs.Forms.{texts};
ghost use Rattle.command_words.specs.Commands.{urls_in, has_authority, are_apart, servers_in, federate_with, federate_from};
ghost use Rattle.command_words.specs.CommandViews.{command_view, federated_view};

use crate::command::{ClientWords, Command, FederateWords};
use crate::from::{client_in, value_of};
use crate::values::url_of;
use clap::ArgMatches;
use std::alloc::Global;
use template_fill::WebAddress;
use tpf_base::OutOfMemory;

pub(crate) static QUERY_AND_URLS: [&str; 9] = [
    "QUERYFILE",
    "URL",
    "URL2",
    "URL3",
    "URL4",
    "URL5",
    "URL6",
    "URL7",
    "URL8",
];

/// The addresses that stand one after another under these names.
fn urls_in(
    alloc: Global,
    matches: &ArgMatches<'_>,
    names: &[&str],
) -> Result<Option<Vec<WebAddress>>, OutOfMemory>
    ensures { IfOk result (λ o. option_map (λ urls. urls.items) o ≡ urls_in (found_in matches.now) (texts names.now)) }
{
    let mut urls = Vec::new(alloc);
    for name in names {
        let Some(text) = value_of(matches, name) else {
            return Ok(Some(urls));
        };
        let Some(url) = url_of(alloc, text)? else {
            return Ok(None);
        };
        urls.push(url)?;
    }
    Ok(Some(urls))
}

fn has_authority(url: &WebAddress, other: &WebAddress) -> bool
    ensures { result ≡ has_authority url.now other.now }
{
    other.authority() == url.authority()
}

fn is_repeated(url: &WebAddress, later: &[WebAddress]) -> bool
    ensures { result ≡ list_any (has_authority url.now) later.now }
{
    later.iter().any(|other| has_authority(url, other))
}

/// Whether no two addresses have one authority.
fn are_apart(urls: &[WebAddress]) -> bool
    ensures { result ≡ are_apart urls.now }
{
    for (i, url) in urls.iter().enumerate() {
        if is_repeated(url, &urls[i + 1..]) {
            return false;
        }
    }
    true
}

/// The addresses of the servers: one or more, with different authorities.
fn servers_in(
    alloc: Global,
    matches: &ArgMatches<'_>,
) -> Result<Option<Vec<WebAddress>>, OutOfMemory>
    ensures { IfOk result (λ o. option_map (λ urls. urls.items) o ≡ servers_in (found_in matches.now)) }
{
    let Some(urls) = urls_in(alloc, matches, &QUERY_AND_URLS.as_slice()[1..])? else {
        return Ok(None);
    };
    if urls.is_empty() || !are_apart(urls.as_slice()) {
        return Ok(None);
    }
    Ok(Some(urls))
}

fn federate_with<'a>(
    matches: &ArgMatches<'a>,
    urls: Option<Vec<WebAddress>>,
    client: Option<ClientWords>,
) -> Option<FederateWords<'a>>
    ensures { option_map federated_view result ≡
        federate_with (found_in matches.now) (option_map (λ u. u.items) urls) client }
{
    let urls = urls?;
    let query = value_of(matches, "QUERYFILE")?;
    let client = client?;
    Some(FederateWords {
        query,
        urls,
        client,
    })
}

/// The query of a file, and the servers that are asked.
pub(crate) fn federate_from<'a>(
    alloc: Global,
    matches: &ArgMatches<'a>,
) -> Result<Option<Command<'a>>, OutOfMemory>
    ensures { IfOk result (λ o. option_map command_view o ≡ federate_from (found_in matches.now)) }
{
    let urls = servers_in(alloc, matches)?;
    match federate_with(matches, urls, client_in(matches)) {
        Some(words) => Ok(Some(Command::Federate(words))),
        None => Ok(None),
    }
}
