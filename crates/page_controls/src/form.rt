// The form of a page's server.
ghost use Rattle.std.specs.Prelude.{◌≡◌, true, Some, IfOk};
ghost use Rattle.template_fill.specs.Templates.{read_template};
ghost use Rattle.page_controls.specs.Controls.{names_all, IsFormOf, HasBadTemplate};
ghost use Rattle.page_controls.specs.Outcomes.{Answers};
ghost use Rattle.control_triples.specs.Places.{texts_of};
ghost use Rattle.page_controls.specs.Counts.{TakesForm, WhyNoForm};

use control_triples::{Controls, FormParts, least_form};
use fragment_page::PageFault;
use std::alloc::Global;
use template_fill::{Form, Template, TemplateFault};
use tpf_base::{OutOfMemory, Text};

/// The template of these texts.
fn read_template_text(alloc: Global, parts: &FormParts) -> Result<Template, PageFault>
    ensures { Answers (λ template. read_template (texts_of parts.now).template ≡ Some template)
        (λ fault. (fault ≡ PageFault.BadTemplate) × HasBadTemplate (texts_of parts.now)) result }
{
    match Template::read(alloc, parts.template) {
        Ok(template) => Ok(template),
        Err(TemplateFault::BadTemplate) => Err(PageFault::BadTemplate),
        Err(TemplateFault::OutOfMemory) => Err(PageFault::OutOfMemory),
    }
}

/// Whether a template names the three variables.
fn has_names(template: &Template, parts: &FormParts) -> bool
    ensures { result ≡ names_all template.now (texts_of parts.now) }
{
    template.names(parts.subject)
        && (template.names(parts.predicate) && template.names(parts.object))
}

/// Copies of two names.
fn copies(alloc: Global, subject: &str, predicate: &str) -> Result<(Text, Text), OutOfMemory>
    ensures { IfOk result (λ names. names ≡ (subject.now, predicate.now)) }
{
    let subject = Text::copy(alloc, subject)?;
    let predicate = Text::copy(alloc, predicate)?;
    Ok((subject, predicate))
}

/// The form of a template that names the three variables.
fn with_names(alloc: Global, template: Template, parts: &FormParts) -> Result<Form, OutOfMemory>
    requires read { read_template (texts_of parts.now).template ≡ Some template }
    requires names { names_all template (texts_of parts.now) ≡ true }
    ensures { IfOk result (IsFormOf (texts_of parts.now)) }
{
    let (subject, predicate) = copies(alloc, parts.subject, parts.predicate)?;
    let object = Text::copy(alloc, parts.object)?;
    Ok(Form {
        template,
        subject,
        predicate,
        object,
    })
}

/// The form with these texts.
fn read_form(alloc: Global, parts: &FormParts) -> Result<Form, PageFault>
    ensures { Answers (IsFormOf (texts_of parts.now))
        (λ fault. (fault ≡ PageFault.BadTemplate) × HasBadTemplate (texts_of parts.now)) result }
{
    let template = read_template_text(alloc, parts)?;
    if !has_names(&template, parts) {
        return Err(PageFault::BadTemplate);
    }
    Ok(with_names(alloc, template, parts)?)
}

/// The least form of the page.
pub(crate) fn find_form(alloc: Global, controls: &Controls) -> Result<Form, PageFault>
    ensures { Answers (TakesForm controls.now.quads controls.now.topic)
        (WhyNoForm controls.now.quads controls.now.topic) result }
{
    match least_form(alloc, controls)? {
        None => Err(PageFault::NoForm),
        Some(parts) => read_form(alloc, &parts),
    }
}
