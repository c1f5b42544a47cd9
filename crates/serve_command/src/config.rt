// Where the fragments of a command stand.
ghost use Rattle.std.specs.Prelude.{◌≡◌, None, false};
ghost use Rattle.template_fill.specs.Configurations.{IsConfig};

use hydra_controls::Config;
use template_fill::WebAddress;
use tpf_base::Text;

/// The configuration without the path of a reload, which reads no rows.
fn plain_config(base: WebAddress, page_size: u64) -> Config
    requires { IsConfig (record { base = base; page_size = page_size; reload = None; rows = false }) }
    ensures { result ≡ record { base = base; page_size = page_size; reload = None; rows = false } }
{
    match Config::new(base, page_size) {
        Some(config) => config,
        None => unreachable!(),
    }
}

/// The configuration with the path of a reload where there is one, which reads no rows.
fn reloading_config(base: WebAddress, page_size: u64, reload: Option<Text>) -> Config
    requires { IsConfig (record { base = base; page_size = page_size; reload = reload; rows = false }) }
    ensures { result ≡ record { base = base; page_size = page_size; reload = reload; rows = false } }
{
    let config = plain_config(base, page_size);
    let Some(path) = reload else {
        return config;
    };
    match config.with_reload(path) {
        Some(config) => config,
        None => unreachable!(),
    }
}

/// The configuration of a base, a page size, the path of a reload where there is one, and whether the rows of
/// requests are read.
pub(crate) fn config_of(
    base: WebAddress,
    page_size: u64,
    reload: Option<Text>,
    rows: bool,
) -> Config
    requires { IsConfig (record { base = base; page_size = page_size; reload = reload; rows = rows }) }
    ensures { result ≡ record { base = base; page_size = page_size; reload = reload; rows = rows } }
{
    let config = reloading_config(base, page_size, reload);
    if rows { config.with_rows() } else { config }
}
