// What the program is asked to do.
use template_fill::WebAddress;
use tpf_base::Text;
use triple_table::Choice;

/// The options with which a client asks.
#[derive(Clone, Copy)]
pub struct ClientWords {
    /// `--window`: how many rows are extended at once, 1 to `MOST_WINDOW` (10000); `USUAL_WINDOW` (16)
    /// where it is not given.
    pub window: u32,
    /// `--block`: how many rows one request carries at most, 2 to `MOST_ROWS` (64); 1 where it is not given,
    /// which is to ask row by row. Then a query is read as one basic graph pattern, without groups.
    pub block: u32,
    /// `--links`: how many connections are open at once, 1 to `MOST_LINKS` (256); `USUAL_LINKS` (8) where
    /// it is not given.
    pub links: u32,
    /// `--retries`: how often a request that failed is sent again, 0 to `MOST_RETRIES` (100);
    /// `USUAL_RETRIES` (2) where it is not given.
    pub retries: u32,
    /// `--budget`: how many exchanges are started at most, 1 to `MOST_BUDGET` (1000000000000);
    /// `USUAL_BUDGET` (1000000) where it is not given.
    pub budget: u64,
    /// `--max-body`: the most bytes of a reply's body, 1 to `LARGEST_BODY` (268435456); `USUAL_BODY`
    /// (16777216) where it is not given.
    pub max_body: u64,
}

/// `local FILE QUERYFILE`: to serve a file of data to a client in the same process, and to write the answer
/// of the query of another file.
#[derive(Drop)]
pub struct LocalWords<'a> {
    /// `FILE`: the name of the file of data.
    pub name: &'a str,
    /// `QUERYFILE`: the name of the file of the query.
    pub query: &'a str,
    /// `--graph IRI` or `--union`, and else the default graph.
    pub choice: Choice,
    /// `--page`: the most triples of a page, 1 to `LARGEST_PAGE` (1000); `USUAL_PAGE` (100) where it is not
    /// given.
    pub page: u64,
    /// The options of the client.
    pub client: ClientWords,
    /// `--seed`: of the random order of events, 0 to `HIGHEST_NUMBER` (9999999999999999999); 0 where it is
    /// not given. It is refused beside `--block`.
    pub seed: u64,
    /// `--fail-every N`: each N-th dial fails, up to `RAREST_FAILURE` (1000000000); 0, as where it is not
    /// given, is never.
    pub fail_every: u64,
}

/// `query URL QUERYFILE`: to ask the query of a file of the server at an address.
#[derive(Drop)]
pub struct QueryWords<'a> {
    /// `URL`: the address of a page of the server, from which the search form is read.
    pub url: WebAddress,
    /// `QUERYFILE`: the name of the file of the query.
    pub query: &'a str,
    /// The options of the client.
    pub client: ClientWords,
}

/// `federate QUERYFILE URL ..`: to ask the query of a file of one to eight servers.
#[derive(Drop)]
pub struct FederateWords<'a> {
    /// `QUERYFILE`: the name of the file of the query.
    pub query: &'a str,
    /// `URL ..`: of each server the address of a page, from which its search form is read; one address
    /// to eight, of which no two have one authority.
    pub urls: Vec<WebAddress>,
    /// The options of the client.
    pub client: ClientWords,
}

/// `serve FILE --base URL`: to serve a file of data.
#[derive(Drop)]
pub struct ServeWords<'a> {
    /// `FILE`: the name of the file of data.
    pub name: &'a str,
    /// `--base`: an address without a query.
    pub base: WebAddress,
    /// `--graph IRI` or `--union`, and else the default graph.
    pub choice: Choice,
    /// `--page`: the most triples of a page, 1 to `LARGEST_PAGE` (1000); `USUAL_PAGE` (100) where it is not
    /// given.
    pub page: u64,
    /// `--stop-after`: after how many connections to stop, 1 to `MOST_CONNECTIONS` (1000000000), and else
    /// never.
    pub stop_after: Option<u64>,
    /// `--reload`: the path on which a request has the file read again, which is a written path and not
    /// that of the base.
    pub reload: Option<Text>,
    /// `--rows`: whether the rows of a request are read, and its page then holds only the triples that fit
    /// one of them. It is refused beside `--reload`.
    pub rows: bool,
}

/// What the program is asked to do.
#[derive(Drop)]
pub enum Command<'a> {
    /// `local FILE QUERYFILE`: to ask the query of a file of data in the same process.
    Local(LocalWords<'a>),
    /// `query URL QUERYFILE`: to ask the query of a file of the server at an address.
    Query(QueryWords<'a>),
    /// `federate QUERYFILE URL ..`: to ask the query of a file of several servers together.
    Federate(FederateWords<'a>),
    /// `serve FILE --base URL`: to serve a file of data.
    Serve(ServeWords<'a>),
    /// `make N`: to write the data of so many persons, 1 to `MOST_PERSONS` (1000000), or with
    /// `--run QUERYFILE` to ask a query of them.
    Make {
        /// `N`: how many persons.
        count: u32,
        /// `--run`: the name of the file of the query, where there is one.
        run: Option<&'a str>,
    },
}
