// Templates, and forms over them.
use crate::addresses::given;
use crate::slots::rows_of;
use case_rows::{Case, CaseFault, truth_text, word_text};
use case_slots::slots_of;
use std::alloc::Global;
use template_fill::{Form, Template, TemplateFault, Value};
use text_base::{OutOfMemory, Text, all_three};

/// A value: a name, and its text.
fn value_of(alloc: Global, name: &str, text: &str) -> Result<Value, OutOfMemory> {
    let name = Text::copy(alloc, name)?;
    let text = Text::copy(alloc, text)?;
    Ok(Value { name, text })
}

/// Appends a value: a name, and its text.
fn push_value(alloc: Global, pair: &[String], values: &mut Vec<Value>) -> Result<(), CaseFault> {
    let [name, text] = pair else {
        return Err(CaseFault::Row);
    };
    match value_of(alloc, name.as_str(), text.as_str()) {
        Ok(value) => Ok(values.push(value)?),
        Err(_) => Err(CaseFault::OutOfMemory),
    }
}

/// `values`: names, each followed by its text.
fn values_of(alloc: Global, case: &mut Case<'_>) -> Result<Vec<Value>, CaseFault> {
    let texts = case.texts(alloc, "values")?;
    let mut values = Vec::new(alloc);
    for pair in texts.as_slice().chunks(2) {
        push_value(alloc, pair, &mut values)?;
    }
    Ok(values)
}

/// `template`: the template, or nothing for a text that is none.
fn template_if(alloc: Global, case: &mut Case<'_>) -> Result<Option<Template>, CaseFault> {
    let text = case.text(alloc, "template")?;
    match Template::read(alloc, text.as_str()) {
        Ok(template) => Ok(Some(template)),
        Err(TemplateFault::BadTemplate) => Ok(None),
        Err(TemplateFault::OutOfMemory) => Err(CaseFault::OutOfMemory),
    }
}

/// `template`: the template.
fn template_of(alloc: Global, case: &mut Case<'_>) -> Result<Template, CaseFault> {
    match template_if(alloc, case)? {
        Some(template) => Ok(template),
        None => Err(CaseFault::Row),
    }
}

/// `template`, `values`: the expansion, or the fault.
pub fn expand(alloc: Global, case: &mut Case<'_>) -> Result<String, CaseFault> {
    let values = values_of(alloc, case)?;
    match template_if(alloc, case)? {
        Some(template) => given(alloc, template.expand(alloc, values.as_slice())),
        None => word_text(alloc, "BadTemplate"),
    }
}

/// `template`, `name`: whether the template has the name.
pub fn names(alloc: Global, case: &mut Case<'_>) -> Result<String, CaseFault> {
    let name = case.text(alloc, "name")?;
    let template = template_of(alloc, case)?;
    truth_text(alloc, template.names(name.as_str()))
}

/// `template`: a form with the names `subject`, `predicate` and `object`.
fn form_of(alloc: Global, case: &mut Case<'_>) -> Result<Form, CaseFault> {
    let template = template_of(alloc, case)?;
    let names = all_three(
        Text::copy(alloc, "subject"),
        Text::copy(alloc, "predicate"),
        Text::copy(alloc, "object"),
    );
    match names {
        Ok((subject, predicate, object)) => Ok(Form {
            template,
            subject,
            predicate,
            object,
        }),
        Err(_) => Err(CaseFault::OutOfMemory),
    }
}

/// `template`, `subject`, `predicate`, `object`: the address that a form with these three names gives.
pub fn form(alloc: Global, case: &mut Case<'_>) -> Result<String, CaseFault> {
    let form = form_of(alloc, case)?;
    let slots = slots_of(alloc, case)?;
    given(alloc, form.address(alloc, &slots))
}

/// `subject`, `predicate`, `object`, `rows`: the address that a form gives.
fn selection_address_of(
    alloc: Global,
    case: &mut Case<'_>,
    form: &Form,
) -> Result<String, CaseFault> {
    let slots = slots_of(alloc, case)?;
    let rows = rows_of(alloc, case)?;
    given(alloc, form.selection_address(alloc, &slots, &rows))
}

/// `template`, `subject`, `predicate`, `object`, `rows`: the address that a form with these three names gives.
pub fn selection_form(alloc: Global, case: &mut Case<'_>) -> Result<String, CaseFault> {
    let form = form_of(alloc, case)?;
    selection_address_of(alloc, case, &form)
}
