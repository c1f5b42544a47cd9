// The tokens that cut a group into blocks and parts.
ghost use Rattle.std.specs.Prelude.{◌≡◌};
ghost use Rattle.group_faults.specs.Signs.{sign_of, is_other};

use query_words::word::Value;

/// A token that stands between blocks, or another.
#[derive(Clone, Copy)]
pub enum Sign {
    Open,
    Close,
    Optional,
    Union,
    Other,
}

/// The sign that a token is.
pub fn sign_of(value: &Value) -> Sign
    ensures { result ≡ sign_of value.now }
{
    match value {
        Value::OpenBrace => Sign::Open,
        Value::CloseBrace => Sign::Close,
        Value::OptionalWord => Sign::Optional,
        Value::UnionWord => Sign::Union,
        _ => Sign::Other,
    }
}

/// Whether the token stands in a block.
pub fn is_other(sign: Sign) -> bool
    ensures { result ≡ is_other sign }
{
    matches!(sign, Sign::Other)
}
