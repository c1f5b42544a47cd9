// The next page, and the authority of links.
ghost use Rattle.std.specs.Prelude.{ℕ, ◌≡◌, List, Some, MatchBool};
ghost use Rattle.std.specs.List.Sorted.{IsStrictlySortedBy};
ghost use Rattle.rdf_terms.specs.declared.term.Quad.{Quad};
ghost use Rattle.tpf_base.specs.Addresses.{IsAddress, authority_of};
ghost use Rattle.template_fill.specs.Templates.{read_template};
ghost use Rattle.template_fill.specs.WebAddress.{IsNoAddress};
ghost use Rattle.control_triples.specs.Controls.{IsNext};
ghost use Rattle.page_controls.specs.Controls.{IsHome, IsForeign};
ghost use Rattle.page_controls.specs.Counts.{WhyNoNext, TakesLink, IsNoLink, AreNexts};
ghost use Rattle.control_triples.specs.Parts.{objects_in};
ghost use Rattle.control_triples.specs.Ranges.{length_order};
ghost use Rattle.page_controls.specs.Outcomes.{Answers};

use control_triples::{Controls, next_page};
use fragment_page::PageFault;
use rdf_terms::{Term, Triple};
use std::alloc::Global;
use template_fill::{AddressFault, Template, WebAddress, laws};

/// The address that an IRI is.
fn link(alloc: Global, text: &str) -> Result<WebAddress, PageFault>
    ensures { Answers (λ a. IsAddress text.now a)
        (λ fault. (fault ≡ PageFault.ForeignLink) × IsNoAddress text.now) result }
{
    match WebAddress::read(alloc, text) {
        Ok(next) => Ok(next),
        Err(AddressFault::BadAddress) => Err(PageFault::ForeignLink),
        Err(AddressFault::OutOfMemory) => Err(PageFault::OutOfMemory),
    }
}

/// The address of the authority that a term is.
fn home_link(alloc: Global, term: &Term, address: &WebAddress) -> Result<WebAddress, PageFault>
    ensures { Answers (TakesLink (authority_of address.now) term.now)
        (λ fault. (fault ≡ PageFault.ForeignLink) × IsNoLink (authority_of address.now) term.now) result }
{
    let Term::Iri(iri) = term else {
        return Err(PageFault::ForeignLink);
    };
    let next = link(alloc, iri.as_str())?;
    if next.same_authority(address) {
        Ok(next)
    } else {
        Err(PageFault::ForeignLink)
    }
}

/// The address of the next page that these objects give, if there are any.
fn next_of(
    alloc: Global,
    objects: &[&Triple],
    address: &WebAddress,
) -> Result<Option<WebAddress>, PageFault>
    requires { IsStrictlySortedBy length_order (objects_in objects.now) }
    ensures { (quads : List Quad) (topic : List ℕ) → AreNexts quads topic objects.now
        → Answers (IsNext quads topic (authority_of address.now))
        (WhyNoNext quads topic (authority_of address.now)) result }
{
    match objects {
        [] => Ok(None),
        [only] => {
            let next = home_link(alloc, &only.object, address)?;
            Ok(Some(next))
        }
        _ => Err(PageFault::TwoNext),
    }
}

/// The address of the next page, if there is one.
pub(crate) fn read_next(
    alloc: Global,
    controls: &Controls,
    address: &WebAddress,
) -> Result<Option<WebAddress>, PageFault>
    ensures { Answers (IsNext controls.now.quads controls.now.topic (authority_of address.now))
        (WhyNoNext controls.now.quads controls.now.topic (authority_of address.now)) result }
{
    let next = next_page(alloc)?;
    next_of(alloc, controls.objects(controls.topic(), &next), address)
}

/// Whether a template that was read is one of the address's authority: that without values it expands to an address of it.
pub fn is_home(template: &Template, address: &WebAddress) -> bool
    ensures { (text : List ℕ) → read_template text ≡ Some template.now → MatchBool result
        (IsHome template.now (authority_of address.now)) (IsForeign template.now (authority_of address.now)) }
{
    laws::expansions_share_authority();
    template.start().same_authority(address)
}

/// Refuses a template of another authority.
pub(crate) fn check_home(template: &Template, address: &WebAddress) -> Result<(), PageFault>
    requires { (text : List ℕ) × (read_template text ≡ Some template.now) }
    ensures { Answers (λ done. IsHome template.now (authority_of address.now))
        (λ fault. (fault ≡ PageFault.ForeignLink) × IsForeign template.now (authority_of address.now)) result }
{
    if is_home(template, address) {
        Ok(())
    } else {
        Err(PageFault::ForeignLink)
    }
}
