//! What the entries of a configuration say.

ghost use Rattle.std.specs.Prelude.{◌≡◌, ◌≤◌, length, IfOk, IfSome, map, string_bytes};
ghost use Rattle.std.specs.Option.{option_and_then, option_map};
ghost use Rattle.ballots.specs.Ballot.{most_members};
ghost use Rattle.toml.specs.Data.{get};
ghost use Rattle.toml.specs.View.{view, array_view, table_view};
ghost use Rattle.configuration.specs.Configuration.{has_entries_alone, is_entry, number_in, addresses_of, begin_of, docs_of, list_of, records_of, texts_of};

use ballots::limits::MOST_MEMBERS;
use document_names::{Names, NamesFault};
use std::alloc::{AllocError, Global};
use toml::value::Array;
use toml::{Table, Value};

/// The number that a value is, if it is one up to `most`.
pub(super) fn number_up_to(value: &Value, least: u32, most: u32) -> Option<u32>
    ensures value { result ≡ number_in least most (view value.now) }
    ensures bound { IfSome result (λ number. number ≤ most) }
{
    let number = value.as_integer()?;
    if number < i64::from(least) || i64::from(most) < number {
        return None;
    }
    u32::try_from(number).ok()
}

/// Whether a configuration may have an entry of that key.
pub(super) fn is_entry(key: &str) -> bool
    ensures { result ≡ is_entry key.now }
{
    key == "group"
        || key == "member"
        || key == "members"
        || key == "docs"
        || key == "records"
        || key == "begin"
}

/// Whether each entry is one that a configuration may have.
pub(super) fn has_entries_alone(table: &Table) -> bool
    ensures { result ≡ has_entries_alone (table_view table.now) }
{
    'entries: for (key, _value) in table.iter() {
        if !is_entry(key.as_str()) {
            return false;
        }
    }
    true
}

/// The texts of an array, or none where an item is no text. It fails where memory is refused.
pub(super) fn texts_of(alloc: Global, array: &Array) -> Result<Option<Vec<String>>, AllocError>
    ensures { IfOk result (λ texts. option_map (λ t. map string_bytes t.items) texts ≡ texts_of (array_view array.now)) }
{
    let mut texts = Vec::new(alloc);
    'items: for item in array {
        let Some(text) = item.as_str() else {
            return Ok(None);
        };
        texts.push(String::from_str(alloc, text)?)?;
    }
    Ok(Some(texts))
}

/// The number that stands at a key, if it is in those bounds.
pub(super) fn number_of(document: &Value, key: &str, least: u32, most: u32) -> Option<u32>
    ensures value { result ≡ option_and_then (number_in least most) (get key.now (view document.now)) }
    ensures bound { IfSome result (λ number. number ≤ most) }
{
    number_up_to(document.get(key)?, least, most)
}

/// Whether the node begins when it starts.
pub(super) fn begin_of(document: &Value) -> Option<bool>
    ensures { result ≡ begin_of (view document.now) }
{
    match document.get("begin") {
        Some(value) => value.as_bool(),
        None => Some(false),
    }
}

/// The texts of the array that stands at a key, or none where there is no such array.
fn read_list(alloc: Global, document: &Value, key: &str) -> Result<Option<Vec<String>>, AllocError>
    ensures { IfOk result (λ texts. option_map (λ t. map string_bytes t.items) texts ≡ option_and_then list_of (get key.now (view document.now))) }
{
    let Some(value) = document.get(key) else {
        return Ok(None);
    };
    match value.as_array() {
        Some(array) => texts_of(alloc, array),
        None => Ok(None),
    }
}

/// The members' addresses. It fails where memory is refused.
pub(super) fn read_addresses(
    alloc: Global,
    document: &Value,
) -> Result<Option<Vec<String>>, AllocError>
    ensures texts { IfOk result (λ texts. option_map (λ t. map string_bytes t.items) texts ≡ addresses_of (view document.now)) }
    ensures few { IfOk result (λ texts. IfSome texts (λ t. length t.items ≤ most_members)) }
{
    let most = usize::from(MOST_MEMBERS);
    match read_list(alloc, document, "members")? {
        Some(texts) if 1 <= texts.len() && texts.len() <= most => Ok(Some(texts)),
        _ => Ok(None),
    }
}

/// The names of the documents. It fails where memory is refused.
pub(super) fn read_docs(alloc: Global, document: &Value) -> Result<Option<Names>, AllocError>
    ensures { IfOk result (λ names. names ≡ docs_of (view document.now)) }
{
    let Some(texts) = read_list(alloc, document, "docs")? else {
        return Ok(None);
    };
    match Names::new(alloc, &texts) {
        Ok(names) => Ok(Some(names)),
        Err(NamesFault::Wrong) => Ok(None),
        Err(NamesFault::Memory) => Err(AllocError),
    }
}

/// The records' file, if there is one. It fails where memory is refused.
pub(super) fn read_records(
    alloc: Global,
    document: &Value,
) -> Result<Option<Option<String>>, AllocError>
    ensures { IfOk result (λ path. option_map (option_map string_bytes) path ≡ records_of (view document.now)) }
{
    let Some(value) = document.get("records") else {
        return Ok(Some(None));
    };
    match value.as_str() {
        Some(path) => Ok(Some(Some(String::from_str(alloc, path)?))),
        None => Ok(None),
    }
}
