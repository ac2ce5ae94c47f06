//! Texts of atomic values, and texts that are made piece by piece.

ghost use Rattle.std.specs.Prelude.{◌≡◌, ◌++◌, map, length, chars, IfOk, IfErr, OnOk, Ok, Err, codes};
ghost use Rattle.std.specs.List.{flat_map};
ghost use Rattle.query_meaning.specs.Strings as meaning;
ghost use Rattle.evaluation.specs.Gives.{Fails, Says};
ghost use Rattle.query_strings.specs.Texts.{text_at};

use crate::limited_string::LimitedString;
use data_model::limits::MOST_BYTES;
use fault_codes::Code;
use std::alloc::{AllocError, Global};
use values::{Atom, Text, ValueFault};

/// An atomic value as a string (Functions and Operators, section 17.1.2). It fails where memory is refused.
pub fn printed(alloc: Global, value: &Atom) -> Result<Text, AllocError>
    ensures { IfOk result (λ t. t ≡ meaning.printed value.now) }
{
    match value {
        Atom::String(text) | Atom::Untyped(text) => text.clone(),
        Atom::Boolean(true) => Text::of(alloc, "true"),
        Atom::Boolean(false) => Text::of(alloc, "false"),
        Atom::Integer(value) => Ok(Text::new(format!(in alloc; "{value}")?)),
    }
}

/// The text of a string or an untyped value. Code: XPTY0004 at an integer or a boolean.
pub fn text_in(value: &Atom) -> Result<&str, Code>
    ensures ok { IfOk result (λ t. meaning.text_in value.now ≡ Ok t.now) }
    ensures code { IfErr result (λ code. meaning.text_in value.now ≡ Err code) }
{
    match value {
        Atom::String(text) | Atom::Untyped(text) => Ok(text.as_str()),
        Atom::Boolean(_) | Atom::Integer(_) => Err(Code::XPTY0004),
    }
}

/// How many characters a text has.
pub fn characters(text: &str) -> usize
    ensures { result ≡ length (chars text.now) }
{
    text.chars().count()
}

/// The text of just one value. Code: XPTY0004 where there is none or more than one, or an integer or a boolean.
pub fn one_text(values: &[Atom]) -> Result<&str, Code>
    ensures ok { IfOk result (λ t. meaning.one_text values.now ≡ Ok t.now) }
    ensures code { IfErr result (λ code. meaning.one_text values.now ≡ Err code) }
{
    match values {
        [value] => text_in(value),
        _ => Err(Code::XPTY0004),
    }
}

/// Texts, with a separator between each two. Faults: `Memory`; `Code` with PXQ0002 where that is longer than 65,536 bytes.
pub fn separated(
    alloc: Global,
    separator: &str,
    texts: &[&str],
) -> Result<LimitedString, ValueFault>
    ensures { Says (meaning.limited (meaning.separated separator.now (map text_at texts.now))) result }
{
    match texts.split_first() {
        None => Ok(LimitedString::new(alloc)),
        Some((first, others)) => with_others(alloc, first, separator, others),
    }
}

/// A text, and others with a separator before each.
fn with_others(
    alloc: Global,
    first: &str,
    separator: &str,
    others: &[&str],
) -> Result<LimitedString, ValueFault>
    ensures { Says (meaning.limited (first.now ++ flat_map (λ t. separator.now ++ text_at t) others.now)) result }
{
    let mut joined = LimitedString::new(alloc);
    joined.push(first)?;
    for text in others {
        push_separated(&mut joined, separator, text)?;
    }
    Ok(joined)
}

fn push_separated(joined: &mut LimitedString, separator: &str, text: &str) -> Result<(), ValueFault>
    ensures pushed { OnOk result (meaning.limited (joined.old ++ separator.now ++ text.now) ≡ Ok joined.new) }
    ensures code { IfErr result (λ fault. Fails (meaning.limited (joined.old ++ separator.now ++ text.now)) fault) }
{
    joined.push(separator)?;
    joined.push(text)
}

/// The texts of values, one after the other. Faults: `Memory`; `Code` with PXQ0002 where that is longer than 65,536 bytes.
pub fn all_printed(alloc: Global, values: &[Atom]) -> Result<LimitedString, ValueFault>
    ensures { Says (meaning.limited (flat_map meaning.printed values.now)) result }
{
    let mut joined = LimitedString::new(alloc);
    for value in values {
        push_printed(alloc, &mut joined, value)?;
    }
    Ok(joined)
}

fn push_printed(alloc: Global, joined: &mut LimitedString, value: &Atom) -> Result<(), ValueFault>
    ensures pushed { OnOk result (meaning.limited (joined.old ++ meaning.printed value.now) ≡ Ok joined.new) }
    ensures code { IfErr result (λ fault. Fails (meaning.limited (joined.old ++ meaning.printed value.now)) fault) }
{
    let text = printed(alloc, value)?;
    joined.push(text.as_str())
}

/// Atomic values joined by single spaces (XQuery 1.0, section 3.7.1.3). Faults: `Memory`; `Code` with PXQ0002 where that is longer than
/// 65,536 bytes.
pub fn spaced(alloc: Global, values: &[Atom]) -> Result<Text, ValueFault>
    ensures { Says (meaning.spaced values.now) result }
{
    match values {
        [value] => printed_within(alloc, value),
        _ => Ok(all_spaced(alloc, values)?.into_text(alloc)?),
    }
}

/// One value as a string, with the same faults. Where it is a text already, that is shared.
fn printed_within(alloc: Global, value: &Atom) -> Result<Text, ValueFault>
    ensures { Says (meaning.limited (meaning.printed value.now)) result }
{
    let text = printed(alloc, value)?;
    if text.as_str().len() > MOST_BYTES {
        return Err(ValueFault::Code(Code::PXQ0002));
    }
    Ok(text)
}

/// The same, put together.
fn all_spaced(alloc: Global, values: &[Atom]) -> Result<LimitedString, ValueFault>
    ensures { Says (meaning.spaced values.now) result }
{
    match values.split_first() {
        None => Ok(LimitedString::new(alloc)),
        Some((first, others)) => with_spaced(alloc, first, others),
    }
}

/// A value, and others with a space before each.
fn with_spaced(alloc: Global, first: &Atom, others: &[Atom]) -> Result<LimitedString, ValueFault>
    ensures { Says (meaning.limited (meaning.printed first.now ++ flat_map (λ a. codes " " ++ meaning.printed a) others.now)) result }
{
    let mut joined = LimitedString::new(alloc);
    push_printed(alloc, &mut joined, first)?;
    for value in others {
        push_spaced(alloc, &mut joined, value)?;
    }
    Ok(joined)
}

fn push_spaced(alloc: Global, joined: &mut LimitedString, value: &Atom) -> Result<(), ValueFault>
    ensures pushed { OnOk result (meaning.limited (joined.old ++ codes " " ++ meaning.printed value.now) ≡ Ok joined.new) }
    ensures code { IfErr result (λ fault. Fails (meaning.limited (joined.old ++ codes " " ++ meaning.printed value.now)) fault) }
{
    let text = printed(alloc, value)?;
    push_separated(joined, " ", text.as_str())
}
