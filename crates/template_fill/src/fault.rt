// Why a text is refused.
use std::alloc::{AllocError, AllocFailed};
use tpf_base::OutOfMemory;

/// Why a text is no explicit form. At most one of the causes but `OutOfMemory` holds of a text.
#[derive(Clone, Copy, Debug)]
pub enum ValueFault {
    /// It begins with no quote, and is no IRI with a scheme.
    Iri,
    /// It begins with a quote, and has no other.
    Quote,
    /// What follows the last quote is no language tag and no datatype.
    Suffix,
    /// The datatype is `rdf:langString`, which only a tagged literal has.
    LangString,
    /// Memory ran out.
    OutOfMemory,
}

/// Why a text is no web address.
#[derive(Clone, Copy, Debug)]
pub enum AddressFault {
    /// It is none.
    BadAddress,
    /// Memory ran out.
    OutOfMemory,
}

/// Why a text is no template.
#[derive(Clone, Copy, Debug)]
pub enum TemplateFault {
    /// It is none.
    BadTemplate,
    /// Memory ran out.
    OutOfMemory,
}

impl From<OutOfMemory> for ValueFault {
    ghost use Rattle.std.specs.Prelude.{◌≡◌};
    ghost use Rattle.template_fill.specs.declared.fault.ValueFault.TheVariants as faults;

    ghost from_gives = { λ _ e. e ≡ faults.OutOfMemory };

    fn from(_: OutOfMemory) -> Self {
        ValueFault::OutOfMemory
    }
}

impl From<AllocError> for TemplateFault {
    ghost use Rattle.std.specs.Prelude.{◌≡◌};
    ghost use Rattle.template_fill.specs.declared.fault.TemplateFault.TheVariants as faults;

    ghost from_gives = { λ _ e. e ≡ faults.OutOfMemory };

    fn from(_: AllocError) -> Self {
        TemplateFault::OutOfMemory
    }
}

impl<T: Drop> From<AllocFailed<T>> for TemplateFault {
    ghost use Rattle.std.specs.Prelude.{◌≡◌};
    ghost use Rattle.template_fill.specs.declared.fault.TemplateFault.TheVariants as faults;

    ghost from_gives = { λ _ e. e ≡ faults.OutOfMemory };

    fn from(_: AllocFailed<T>) -> Self {
        TemplateFault::OutOfMemory
    }
}

impl From<OutOfMemory> for TemplateFault {
    ghost use Rattle.std.specs.Prelude.{◌≡◌};
    ghost use Rattle.template_fill.specs.declared.fault.TemplateFault.TheVariants as faults;

    ghost from_gives = { λ _ e. e ≡ faults.OutOfMemory };

    fn from(_: OutOfMemory) -> Self {
        TemplateFault::OutOfMemory
    }
}
