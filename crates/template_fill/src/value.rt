// Values of templates.
ghost use Rattle.std.specs.Prelude.{◌≡◌, ◌<◌, ◌++◌, Some, OnOk};
ghost use Rattle.std.specs.String.{string_bytes};
ghost use Rattle.template_fill.specs.Templates.{pair_text};
ghost use Rattle.template_fill.specs.Values.{encoded_value};

use percent_encoding::{AsciiSet, NON_ALPHANUMERIC, ascii_set, utf8_percent_encode};
use std::alloc::AllocError;
use tpf_base::Text;

/// A value of a template, by the name of its variable.
#[derive(Drop)]
pub struct Value {
    /// The name of the variable.
    pub name: Text,
    /// The value, not yet encoded.
    pub text: Text,
}

/// All characters but the unreserved ones (RFC 3986, section 2.3).
pub(crate) const VALUE: AsciiSet = ascii_set!(
    NON_ALPHANUMERIC
        .remove(b'-')
        .remove(b'.')
        .remove(b'_')
        .remove(b'~')
);

/// Appends a value as a template writes it.
pub(crate) fn push_value(out: &mut String, value: &str) -> Result<(), AllocError>
    ensures { OnOk result (string_bytes out.new ≡ string_bytes out.old ++ encoded_value value.now) }
{
    utf8_percent_encode(value, VALUE).append_to(out)
}

/// Appends a name and its value after a mark.
pub(crate) fn push_named_value(
    out: &mut String,
    mark: char,
    name: &str,
    value: &str,
) -> Result<(), AllocError>
    requires { mark < 128 }
    ensures { OnOk result
        (string_bytes out.new ≡ string_bytes out.old ++ pair_text mark name.now (Some value.now)) }
{
    out.push(mark)?;
    out.push_str(name)?;
    out.push('=')?;
    push_value(out, value)
}
