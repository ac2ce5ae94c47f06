//! Texts that are parsed.

use parser::parse;
use std::alloc::Global;

/// One expression of a text, with the comma after it: 250 bytes.
const UNIT: &str =
    "for $x at $i in doc(\"db\")/a//b[@c = \"d\" and position() < 3] let $y := ($x, $i)[1] where $y/e eq 1 and not($y/self::text()) order by $y/f return if ($i mod 2 = 0) then element g {attribute h {\"i&amp;j\"}, $y/text()} else (: odd   :) -1 + 2 * 3 idiv 4, ";

/// The bytes of a unit.
const UNIT_BYTES: u32 = 250;

/// The bytes of all texts that are parsed in one run.
const ALL_BYTES: u32 = 8_000_000;

/// Expressions with commas between them, about so many bytes of text.
fn text_of(alloc: Global, bytes: u32) -> Option<String> {
    let mut text = String::new(alloc);
    for _unit in 0..bytes / UNIT_BYTES {
        text.push_str(UNIT).ok()?;
    }
    text.push_str("()").ok()?;
    Some(text)
}

/// How many texts of so many bytes are made, where all have eight million bytes together: at least one.
pub fn made(alloc: Global, bytes: u32) -> Option<u32> {
    text_of(alloc, bytes)?;
    Some(ALL_BYTES / bytes.max(UNIT_BYTES))
}

/// How many texts of so many bytes are parsed, where all have eight million bytes together.
pub fn parsed(alloc: Global, bytes: u32) -> Option<u32> {
    let text = text_of(alloc, bytes)?;
    let count = ALL_BYTES / bytes.max(UNIT_BYTES);
    for _text in 0..count {
        parse(alloc, 1, &text).ok()?;
    }
    Some(count)
}
