//! The summary of an input as a JSON object.
ghost use Rattle.std.specs.Prelude.{◌≡◌, IfOk, map, string_bytes};
ghost use Rattle.std.specs.Str.Lines.{lines};
ghost use Rattle.std.specs.Str.Lossy.{utf8_lossy};
ghost use Rattle.serde_json.specs.Data.{string};
ghost use Rattle.serde_json.specs.View.{view};
ghost use Rattle.text_json.specs.Shown.Items.{IsTypedText};
ghost use Rattle.text_json.specs.Shown.Objects.{refused_members, refused_text, shown_members, shown_text};

use crate::shown::items::item_lines;
use crate::shown::line::{text_lines, text_or_null};
use crate::shown::words::words_of;
use der_base::rules::Rules;
use der_schema::Schema;
use serde_json::{Value, json};
use std::alloc::{AllocError, Global};

/// The source of octets.
#[derive(Clone, Copy)]
pub struct Source<'a> {
    /// The file name.
    pub file: &'a str,
    /// The number of the block, if the file has blocks.
    pub block: Option<usize>,
    /// The label of the block, as printed.
    pub label: Option<&'a str>,
}

/// The summary of octets: the lines before the words, the words, and whether the octets keep the rules of RFC 5280.
/// Octets that aren't UTF-8 are replaced.
pub fn shown_json(
    alloc: Global,
    source: Source<'_>,
    lines: &[u8],
    words: &[u8],
    keeps_rules: bool,
) -> Result<String, AllocError>
    ensures { IfOk result (λ text. string_bytes text ≡ shown_text source.entry lines.now words.now keeps_rules) }
{
    let lines = lines_in(alloc, lines)?;
    let said = text_lines(alloc, words)?;
    let words = words_of(alloc, said)?;
    let value = shown_value(alloc, source, lines, words, keeps_rules)?;
    value.to_string(alloc)
}

/// The summary of octets by the words of a type, with typed values.
pub fn typed_json(
    alloc: Global,
    source: Source<'_>,
    octets: &[u8],
    rules: Rules,
    schema: Schema<'_>,
) -> Result<String, AllocError>
    ensures { IfOk result (λ text. IsTypedText source.entry rules schema.entry octets.now (string_bytes text)) }
{
    let items = item_lines(alloc, octets, rules, schema)?;
    let words = words_of(alloc, items)?;
    let lines = Vec::new(alloc);
    let value = shown_value(alloc, source, lines, words, true)?;
    value.to_string(alloc)
}

/// Why octets are rejected: the error, its offset, and the words read before it.
pub fn refused_json(
    alloc: Global,
    source: Source<'_>,
    error: &str,
    offset: Option<usize>,
    words: &[u8],
) -> Result<String, AllocError>
    ensures { IfOk result (λ text. string_bytes text ≡ refused_text source.entry error.now offset words.now) }
{
    let said = text_lines(alloc, words)?;
    let words = words_of(alloc, said)?;
    let value = refused_value(alloc, source, error, offset, words)?;
    value.to_string(alloc)
}

/// The members for a summary.
fn shown_value(
    alloc: Global,
    source: Source<'_>,
    lines: Vec<Value>,
    words: Vec<Value>,
    keeps_rules: bool,
) -> Result<Value, AllocError>
    ensures { IfOk result (λ value. view value
        ≡ shown_members source.entry (map view lines.items) (map view words.items) keeps_rules) }
{
    let label = text_or_null(alloc, source.label)?;
    // Values that own memory come first: then less has to be dropped if an allocation fails.
    json!(in alloc; {
        "words": words,
        "lines": lines,
        "label": label,
        "block": source.block,
        "file": source.file,
        "keeps_rules": keeps_rules
    })
}

/// The members for rejected octets.
fn refused_value(
    alloc: Global,
    source: Source<'_>,
    error: &str,
    offset: Option<usize>,
    words: Vec<Value>,
) -> Result<Value, AllocError>
    ensures { IfOk result (λ value. view value
        ≡ refused_members source.entry error.now offset (map view words.items)) }
{
    let label = text_or_null(alloc, source.label)?;
    json!(in alloc; {
        "words": words,
        "label": label,
        "block": source.block,
        "error": error,
        "file": source.file,
        "offset": offset
    })
}

/// The lines of a text.
fn lines_in(alloc: Global, text: &[u8]) -> Result<Vec<Value>, AllocError>
    ensures { IfOk result (λ found. map view found.items ≡ map string (lines (utf8_lossy text.now))) }
{
    let text = String::from_utf8_lossy(alloc, text)?;
    let mut found = Vec::new(alloc);
    'lines: for line in text.lines() {
        found.push(Value::try_from_str(alloc, line)?)?;
    }
    Ok(found)
}
