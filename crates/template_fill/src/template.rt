// Templates of addresses.
ghost use Rattle.std.specs.Prelude.{◌≡◌, true, Some, None, IfOk, IsErrOf, MatchOption, IfSome};
ghost use Rattle.std.specs.Option.{option_copied};
ghost use Rattle.tpf_base.specs.Addresses.{IsAddress, address_text};
ghost use Rattle.template_fill.specs.ReadAddress.{IsSpelled};
ghost use Rattle.template_fill.specs.Authorities.{ShareAuthority};
ghost use Rattle.template_fill.specs.Spelled.{spelled_of};
ghost use Rattle.template_fill.specs.Templates.{sections_after, parts_of, start_of, read_template, expansion, has_name};

use crate::part::{Part, cut};
use crate::spelled::{SpelledAddress, read_spelled};
use crate::{TemplateFault, Value, WebAddress};
use std::alloc::Global;
use std::marker::Model;
use tpf_base::OutOfMemory;

/// A template of addresses (RFC 6570): an address whose path is written, and then
/// expressions `{?names}` and `{&names}` with texts of an address between them.
///
/// Contracts see it by its parts.
pub struct Template {
    start: WebAddress,
    parts: Vec<Part>,
}

// Written out, so that who drops one calls this, and does not take it apart at each exit.
impl Drop for Template {
    fn drop(self) {
        let Template {
            start: _start,
            parts: _parts,
        } = self;
    }
}

impl Model for Template {
    ghost use Rattle.template_fill.specs.Templates as templates;

    ghost Value = { templates.Template };

    ghost view = { λ t. record { start = t.start; parts = t.parts.items } };
}

/// The address before the first expression, if its path is written.
#[tactic(auto, unfolding(crate::specs::Templates::start_of))]
fn start_of(text: &[u8]) -> Option<SpelledAddress<'_>>
    ensures parts { MatchOption result (start_of text.now ≡ None) (λ s. start_of text.now ≡ Some (spelled_of s)) }
    ensures spelled { IfSome result (λ s. IsSpelled (spelled_of s)) }
{
    let spelled = read_spelled(text)?;
    match spelled.rest {
        [b'/', ..] => Some(spelled),
        _ => None,
    }
}

/// The parts of what follows the first `{`, if there is one.
fn read_parts(alloc: Global, first: Option<&[u8]>) -> Result<Vec<Part>, TemplateFault>
    ensures read { IfOk result (λ parts. parts_of (sections_after 123 (option_copied first.entry)) ≡ Some parts.items) }
    ensures refused { IsErrOf result TemplateFault.BadTemplate
        → parts_of (sections_after 123 (option_copied first.entry)) ≡ None }
{
    let mut parts = Vec::new(alloc);
    let mut rest = first;
    while let Some(text) = rest {
        let (section, more) = cut(text, b'{');
        let part = Part::read(alloc, section)?;
        parts.push(part)?;
        rest = more;
    }
    Ok(parts)
}

impl Template {
    /// The template that a text is (RFC 6570, section 2, of it the operators `?` and `&`). `BadTemplate`
    /// only where it is none; a text whose fault stands late may get `OutOfMemory` instead.
    #[tactic(auto, unfolding(crate::specs::Templates::read_template))]
    pub fn read(alloc: Global, text: &str) -> Result<Template, TemplateFault>
        ensures read { IfOk result (λ template. read_template text.now ≡ Some template) }
        ensures refused { IsErrOf result TemplateFault.BadTemplate → read_template text.now ≡ None }
    {
        let (start, rest) = cut(text.as_bytes(), b'{');
        let Some(start) = start_of(start) else {
            return Err(TemplateFault::BadTemplate);
        };
        let parts = read_parts(alloc, rest)?;
        let start = WebAddress::normal(alloc, &start)?;
        Ok(Template { start, parts })
    }

    /// The address before the first expression, whose authority each address has that the template
    /// expands to.
    pub fn start(&self) -> &WebAddress
        ensures { result.now ≡ self.now.start }
    {
        &self.start
    }

    /// Whether an expression has this name.
    pub fn names(&self, name: &str) -> bool
        ensures { result ≡ has_name self.now name.now }
    {
        for part in &self.parts {
            if part.has_name(name) {
                return true;
            }
        }
        false
    }

    /// The address that the template is with these values (RFC 6570, section 3.2.1). A name
    /// without a value is left out; of several values with one name the first counts. The authority
    /// is that of the start. It fails only when memory ran out.
    #[tactic(auto, unfolding(crate::specs::Templates::expansion))]
    pub fn expand(&self, alloc: Global, values: &[Value]) -> Result<WebAddress, OutOfMemory>
        ensures address { IfOk result (λ address. IsAddress (expansion self.now values.now) address) }
        ensures text { IfOk result (λ address. address_text address ≡ expansion self.now values.now) }
        ensures authority { IfOk result (λ address. ShareAuthority self.now.start address) }
    {
        let mut text = String::from_str(alloc, self.start.text())?;
        for part in &self.parts {
            part.push(&mut text, values)?;
        }
        Ok(self.start.extended(text))
    }
}
