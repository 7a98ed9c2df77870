//! Keys of a TOML table, judged one at a time.
ghost use Rattle.std.specs.Prelude.{◌≡◌, ◌≤◌, ◌<◌, ◌^◌, map, option_map, length, IfOk};
ghost use Rattle.toml.specs.Data.{get_member};
ghost use Rattle.toml.specs.View.{table_view, view, items_view};
ghost use Rattle.host_script.specs.Fields.{is_among, only_keys, text_field, flag_field, number_field, integer_field, tables_field, counted, needed, seen, seen_one, seen_items, are_tables, has_key, integer_or};

use crate::fault::ScriptKind;
use toml::{Table, Value};

fn is_among(words: &[&str], key: &str) -> bool
    ensures { result ≡ is_among (map (λ word. word.now) words.now) key.now }
{
    for word in words {
        if *word == key {
            return true;
        }
    }
    false
}

/// Refuses a table with a key that is none of these.
#[tactic(auto, unfolding(crate::specs::Fields::only_keys))]
pub(crate) fn only_keys(table: &Table, words: &[&str]) -> Result<(), ScriptKind>
    ensures { result ≡ only_keys (map (λ word. word.now) words.now) (table_view table.now) }
{
    for (key, _) in table {
        if !is_among(words, key.as_str()) {
            return Err(ScriptKind::Key);
        }
    }
    Ok(())
}

/// The value at a key, if the key is there.
pub(crate) fn find<'a>(table: &'a Table, key: &str) -> Option<&'a Value>
    ensures { option_map (λ v. view v.now) result ≡ get_member key.now (table_view table.now) }
{
    table.get(key)
}

/// Whether a key is there.
#[tactic(auto, unfolding(crate::specs::Fields::has_key))]
pub(crate) fn has_key(table: &Table, key: &str) -> bool
    ensures { result ≡ has_key key.now (table_view table.now) }
{
    match find(table, key) {
        None => false,
        Some(_) => true,
    }
}

/// The text at a key, if the key is there.
#[tactic(auto, unfolding(crate::specs::Fields::text_field))]
pub(crate) fn text_field<'a>(table: &'a Table, key: &str) -> Result<Option<&'a str>, ScriptKind>
    ensures { seen result ≡ text_field key.now (table_view table.now) }
{
    match find(table, key) {
        None => Ok(None),
        Some(Value::String(text)) => Ok(Some(text.as_str())),
        Some(_) => Err(ScriptKind::Shape),
    }
}

/// The text at a key that has to be there.
pub(crate) fn needed_text<'a>(table: &'a Table, key: &str) -> Result<&'a str, ScriptKind>
    ensures { seen_one result ≡ needed (text_field key.now (table_view table.now)) }
{
    match text_field(table, key)? {
        Some(text) => Ok(text),
        None => Err(ScriptKind::Missing),
    }
}

/// The number of the number text at a key, if the key is there.
#[tactic(auto, unfolding(crate::specs::Fields::number_field))]
pub(crate) fn number_field(table: &Table, key: &str) -> Result<Option<u64>, ScriptKind>
    ensures { result ≡ number_field key.now (table_view table.now) }
{
    let text = match text_field(table, key)? {
        Some(text) => text,
        None => return Ok(None),
    };
    match uh_base::number(text) {
        Some(n) => Ok(Some(n)),
        None => Err(ScriptKind::Value),
    }
}

/// The number of the number text at a key that has to be there.
pub(crate) fn needed_number(table: &Table, key: &str) -> Result<u64, ScriptKind>
    ensures { result ≡ needed (number_field key.now (table_view table.now)) }
{
    match number_field(table, key)? {
        Some(n) => Ok(n),
        None => Err(ScriptKind::Missing),
    }
}

/// True or false at a key, if the key is there.
#[tactic(auto, unfolding(crate::specs::Fields::flag_field))]
pub(crate) fn flag_field(table: &Table, key: &str) -> Result<Option<bool>, ScriptKind>
    ensures { result ≡ flag_field key.now (table_view table.now) }
{
    match find(table, key) {
        None => Ok(None),
        Some(Value::Boolean(flag)) => Ok(Some(*flag)),
        Some(_) => Err(ScriptKind::Shape),
    }
}

/// The integer from `low` to `high` at a key, if the key is there.
#[tactic(auto, unfolding(crate::specs::Fields::integer_field))]
pub(crate) fn integer_field(
    table: &Table,
    key: &str,
    low: u32,
    high: u32,
) -> Result<Option<u32>, ScriptKind>
    ensures { result ≡ integer_field key.now low high (table_view table.now) }
{
    match find(table, key) {
        None => Ok(None),
        Some(Value::Integer(n)) => {
            if *n >= i64::from(low) && *n <= i64::from(high) {
                Ok(Some(*n as u32))
            } else {
                Err(ScriptKind::Value)
            }
        }
        Some(_) => Err(ScriptKind::Shape),
    }
}

/// The integer from `low` to `high` at a key, or the usual one if the key isn't there.
#[tactic(auto, unfolding(crate::specs::Fields::integer_or))]
pub(crate) fn integer_or(
    table: &Table,
    key: &str,
    low: u32,
    high: u32,
    usual: u32,
) -> Result<u32, ScriptKind>
    ensures { result ≡ integer_or key.now low high usual (table_view table.now) }
{
    match integer_field(table, key, low, high)? {
        Some(n) => Ok(n),
        None => Ok(usual),
    }
}

fn are_tables(values: &[Value]) -> bool
    ensures { result ≡ are_tables (items_view values.now) }
{
    for value in values {
        match value {
            Value::Table(_) => {}
            _ => return false,
        }
    }
    true
}

/// The tables at a key, none if the key isn't there.
#[tactic(auto, unfolding(crate::specs::Fields::tables_field))]
pub(crate) fn tables_field<'a>(table: &'a Table, key: &str) -> Result<&'a [Value], ScriptKind>
    ensures { seen_items result ≡ tables_field key.now (table_view table.now) }
{
    match find(table, key) {
        None => Ok(&[]),
        Some(Value::Array(values)) => {
            if are_tables(values.as_slice()) {
                Ok(values.as_slice())
            } else {
                Err(ScriptKind::Shape)
            }
        }
        Some(_) => Err(ScriptKind::Shape),
    }
}

/// Refuses more values than so many.
#[tactic(auto, using(crate::proofs::Views::length_as_items), unfolding(crate::specs::Fields::counted))]
pub(crate) fn counted(values: &[Value], most: usize) -> Result<&[Value], ScriptKind>
    ensures seen { seen_items result ≡ counted most (items_view values.now) }
    ensures few { IfOk result (λ kept. length kept.now ≤ most) }
{
    if values.len() > most {
        return Err(ScriptKind::Count);
    }
    Ok(values)
}
