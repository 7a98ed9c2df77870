//! Lists of texts, each read by one form.
ghost use Rattle.std.specs.Prelude.{◌≡◌, ◌≤◌, [], IfOk, List, ℕ, Option, length};
ghost use Rattle.toml.specs.View.{view, table_view, items_view};
ghost use Rattle.uh_base.specs.Numbers.{number_of};
ghost use Rattle.host_script.specs.Faults.{Gives};
ghost use Rattle.host_script.specs.Fields.{seen_items};
ghost use Rattle.host_script.specs.Lists.{are_texts, texts_field, form_at, forms_of, few, listed};

use crate::fault::{Fault, ScriptKind};
use crate::fields::find;
use std::alloc::{AllocError, Global};
use toml::{Table, Value};

/// What a text is read as.
pub(crate) trait Form: Drop {
    /// What a text of the form is read as.
    ghost form: { List ℕ → Option Self };

    /// Reads a text; None where it hasn't the form.
    fn read(alloc: Global, text: &str) -> Result<Option<Self>, AllocError>
        ensures { IfOk result (λ read. read ≡ form text.now) };
}

impl Form for u64 {
    ghost form = { number_of };

    fn read(_alloc: Global, text: &str) -> Result<Option<u64>, AllocError> {
        Ok(uh_base::number(text))
    }
}

fn are_texts(values: &[Value]) -> bool
    ensures { result ≡ are_texts (items_view values.now) }
{
    for value in values {
        if value.as_str().is_none() {
            return false;
        }
    }
    true
}

/// The texts at a key, none if the key isn't there.
#[tactic(auto, unfolding(crate::specs::Lists::texts_field))]
pub(crate) fn texts_field<'a>(table: &'a Table, key: &str) -> Result<&'a [Value], ScriptKind>
    ensures { seen_items result ≡ texts_field key.now (table_view table.now) }
{
    match find(table, key) {
        None => Ok(&[]),
        Some(Value::Array(values)) => {
            if are_texts(values.as_slice()) {
                Ok(values.as_slice())
            } else {
                Err(ScriptKind::Shape)
            }
        }
        Some(_) => Err(ScriptKind::Shape),
    }
}

/// What a value is read as by a form.
#[tactic(auto, unfolding(crate::specs::Lists::form_at))]
fn form_at<T: Form>(alloc: Global, value: &Value) -> Result<T, Fault>
    ensures { Gives (λ x. x) result (form_at T.form (view value.now)) }
{
    let Some(text) = value.as_str() else {
        return Err(Fault::Kind(ScriptKind::Shape));
    };
    match T::read(alloc, text)? {
        Some(read) => Ok(read),
        None => Err(Fault::Kind(ScriptKind::Value)),
    }
}

/// What the texts of a list are read as by a form.
pub(crate) fn forms_of<T: Form>(alloc: Global, values: &[Value]) -> Result<Vec<T>, Fault>
    ensures { Gives (λ read. read.items) result (forms_of T.form [] (items_view values.now)) }
{
    let mut read = Vec::new(alloc);
    for value in values {
        let x: T = form_at(alloc, value)?;
        read.push(x)?;
    }
    Ok(read)
}

/// Refuses more items than so many.
pub(crate) fn few<T: Drop>(items: Vec<T>, most: usize) -> Result<Vec<T>, Fault>
    ensures { Gives (λ kept. kept.items) result (few most items.items) }
{
    if items.len() > most {
        return Err(Fault::Kind(ScriptKind::Count));
    }
    Ok(items)
}

/// The texts at a key, each read by the form, at most so many; none if the key isn't there.
#[tactic(auto, unfolding(crate::specs::Lists::listed))]
pub(crate) fn listed<T: Form>(
    alloc: Global,
    table: &Table,
    key: &str,
    most: usize,
) -> Result<Vec<T>, Fault>
    ensures { Gives (λ read. read.items) result (listed T.form key.now most (table_view table.now)) }
{
    let read = forms_of(alloc, texts_field(table, key)?)?;
    few(read, most)
}
