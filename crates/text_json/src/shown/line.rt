//! The lines of a summary.
ghost use Rattle.std.specs.Prelude.{◌≡◌, IfOk, map};
ghost use Rattle.std.specs.Option.{option_map};
ghost use Rattle.std.specs.Str.Lossy.{utf8_lossy};
ghost use Rattle.serde_json.specs.View.{view};
ghost use Rattle.text_json.specs.Shown.Lines.{after_space, indent, line_on, lines_on, name_on, not_empty, text_or_null};
ghost use Rattle.text_json.specs.Shown.Lines.{typed_or_null, value_on};
ghost use Rattle.text_json.specs.Shown.Words.{line_view};

use crate::shown::form::form_of;
use crate::shown::value::{heading, value_of};
use serde_json::Value;
use std::alloc::{AllocError, Global};

/// A line of a summary, such as `Version: 3`.
#[derive(Drop)]
pub(crate) struct Line {
    /// How deep it is: the words of the deeper lines after it are inside its word.
    pub indent: usize,
    pub name: Value,
    /// What is in front of the value, such as the name of its type; null if nothing is.
    pub kind: Value,
    pub value: Value,
    /// The offset of the element; None if it isn't known.
    pub offset: Option<usize>,
}

/// The parts of the text of a line.
#[derive(Clone, Copy)]
struct Parts<'a> {
    /// The number of leading white space octets.
    indent: usize,
    /// The text before the first colon.
    name: &'a str,
    /// The text after the colon and a space; None if it is empty.
    value: Option<&'a str>,
}

/// The lines of a text. Octets that aren't UTF-8 are replaced.
pub(crate) fn text_lines(alloc: Global, text: &[u8]) -> Result<Vec<Line>, AllocError>
    ensures { IfOk result (λ found. map line_view found.items ≡ lines_on (utf8_lossy text.now)) }
{
    let text = String::from_utf8_lossy(alloc, text)?;
    let mut found = Vec::new(alloc);
    'lines: for line in text.lines() {
        found.push(line_of(alloc, line)?)?;
    }
    Ok(found)
}

/// The line with this text.
fn line_of(alloc: Global, text: &str) -> Result<Line, AllocError>
    ensures { IfOk result (λ line. line_view line ≡ line_on text.now) }
{
    let parts = parts_of(text);
    let name = Value::try_from_str(alloc, parts.name)?;
    let value = typed_or_null(alloc, parts.name, parts.value)?;
    Ok(Line {
        indent: parts.indent,
        name,
        kind: Value::Null,
        value,
        offset: None,
    })
}

/// The value of the line with this label, or the heading of an extension; null if it is neither.
fn typed_or_null(alloc: Global, label: &str, text: Option<&str>) -> Result<Value, AllocError>
    ensures { IfOk result (λ value. view value
        ≡ typed_or_null label.now (option_map (λ t. t.now) text.entry)) }
{
    match text {
        Some(text) => value_of(alloc, form_of(label.as_bytes()), text),
        None => heading(alloc, label),
    }
}

/// Splits the text of a line into its parts.
fn parts_of(line: &str) -> Parts<'_>
    ensures indent { result.indent ≡ indent line.now }
    ensures name { result.name.now ≡ name_on line.now }
    ensures value { option_map (λ v. v.now) result.value ≡ value_on line.now }
{
    let content = line.trim_start();
    let indent = line.len() - content.len();
    match content.split_once(':') {
        Some((name, rest)) => Parts {
            indent,
            name,
            value: not_empty(after_space(rest)),
        },
        None => Parts {
            indent,
            name: content,
            value: None,
        },
    }
}

/// A text without one leading space.
fn after_space(text: &str) -> &str
    ensures { result.now ≡ after_space text.now }
{
    match text.strip_prefix(' ') {
        Some(rest) => rest,
        None => text,
    }
}

/// A text, unless it is empty.
pub(crate) fn not_empty(text: &str) -> Option<&str>
    ensures { option_map (λ t. t.now) result ≡ not_empty text.now }
{
    if text.is_empty() { None } else { Some(text) }
}

/// A text in JSON, or null if there is none.
pub(crate) fn text_or_null(alloc: Global, text: Option<&str>) -> Result<Value, AllocError>
    ensures { IfOk result (λ value. view value ≡ text_or_null (option_map (λ t. t.now) text.entry)) }
{
    match text {
        Some(text) => Value::try_from_str(alloc, text),
        None => Ok(Value::Null),
    }
}
