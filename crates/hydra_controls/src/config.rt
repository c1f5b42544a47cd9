// Where the fragments of a server stand.
ghost use Rattle.std.specs.Prelude.{◌≡◌, ◌≤◌, ◌↔◌, false, None, IsNone, IfSome};
ghost use Rattle.template_fill.specs.Answers.{is_path_of_reload};
ghost use Rattle.template_fill.specs.Configurations.{IsConfig, is_reload_path, reading_rows, with_reload};

use std::marker::Model;
use template_fill::{LARGEST_PAGE, WebAddress, is_written_path};
use tpf_base::Text;

/// Where the fragments of a server stand, how many triples a page has at most, the path on which
/// a request has the data read again, if there is one, and whether rows that a request carries are read.
///
/// The base has no query part, the page size is 1 to `LARGEST_PAGE` (1000), and the path is written and
/// not that of the base. Contracts see it as the record of the four.
#[derive(Drop)]
pub struct Config {
    base: WebAddress,
    page_size: u64,
    reload: Option<Text>,
    rows: bool,
}

impl Model for Config {
    ghost use Rattle.std.specs.Prelude.{◌≡◌, ◌≤◌, None};
    ghost use Rattle.template_fill.specs.declared.limits.TheConstants.{LARGEST_PAGE};
    ghost use Rattle.template_fill.specs.Configurations.{HasReloadPath};
    ghost use Rattle.template_fill.specs.Metadata as definitions;

    ghost Value = { definitions.Config };

    ghost view = { λ c. record { base = c.base; page_size = c.page_size; reload = c.reload; rows = c.rows } };

    ghost invariant = { λ c. (c.base.query ≡ None) × (1 ≤ c.page_size) × (c.page_size ≤ LARGEST_PAGE) × HasReloadPath c.base c.reload };
}

impl Config {
    /// Fragments whose template stands after this base, on pages of so many triples, without a path on
    /// which a request has the data read again; rows that a request carries are passed over. `None` exactly
    /// where the base has a query part, or the page size is not 1 to `LARGEST_PAGE` (1000). It takes no memory.
    pub fn new(base: WebAddress, page_size: u64) -> Option<Config>
        ensures config { IfSome result (λ config.
            (config.base ≡ base) × (config.page_size ≡ page_size) × (config.reload ≡ None) × (config.rows ≡ false)) }
        ensures valid { IfSome result IsConfig }
        ensures refused { IsNone result
            ↔ ¬ (IsConfig (record { base = base; page_size = page_size; reload = None; rows = false })) }
    {
        base.is_valid();
        if base.has_query() || page_size == 0 || page_size > LARGEST_PAGE {
            return None;
        }
        Some(Config {
            base,
            page_size,
            reload: None,
            rows: false,
        })
    }

    /// The same, with a path on which a request by another method than GET and HEAD has the data read
    /// again. `None` exactly where the text is no written path, which is `/` and characters of a path,
    /// or is the base's path; then the config is dropped with the path. It takes no memory.
    pub fn with_reload(self, path: Text) -> Option<Config>
        ensures config { IfSome result (λ config. config ≡ with_reload self path) }
        ensures valid { IfSome result IsConfig }
        ensures refused { IsNone result ↔ (is_reload_path self.base path ≡ false) }
    {
        self.base.is_valid();
        let bytes = path.as_str().as_bytes();
        if !is_written_path(bytes) || bytes == self.base.target().as_bytes() {
            return None;
        }
        Some(Config {
            base: self.base,
            page_size: self.page_size,
            reload: Some(path),
            rows: self.rows,
        })
    }

    /// The same, where the rows that a request carries are read: they restrict a fragment to the triples
    /// that match one of them (brTPF). It takes no memory.
    pub fn with_rows(self) -> Config
        ensures config { result ≡ reading_rows self }
        ensures valid { IsConfig result }
    {
        self.base.is_valid();
        Config {
            base: self.base,
            page_size: self.page_size,
            reload: self.reload,
            rows: true,
        }
    }

    /// The base is an address without a query part, the page size is 1 to `LARGEST_PAGE` (1000), and the path
    /// of a reload is a written one beside the base's. The call does nothing; it tells a proof of it.
    pub fn is_valid(&self)
        ensures { IsConfig self.now }
    {
        let _size = self.page_size;
        self.base.is_valid();
    }

    /// The address that the template stands after.
    pub fn base(&self) -> &WebAddress
        ensures base { result.now ≡ self.now.base }
        ensures valid { IsConfig self.now }
    {
        self.base.is_valid();
        &self.base
    }

    /// The most triples of a page: 1 to `LARGEST_PAGE` (1000).
    pub fn page_size(&self) -> u64
        ensures size { result ≡ self.now.page_size }
        ensures valid { IsConfig self.now }
    {
        self.base.is_valid();
        self.page_size
    }

    /// Whether the rows that a request carries are read.
    pub fn reads_rows(&self) -> bool
        ensures { result ≡ self.now.rows }
    {
        self.rows
    }

    /// Whether a path is the one on which a request has the data read again.
    pub fn is_reload(&self, path: &[u8]) -> bool
        ensures { result ≡ is_path_of_reload self.now.reload path.now }
    {
        match &self.reload {
            Some(reload) => path == reload.as_str().as_bytes(),
            None => false,
        }
    }
}
