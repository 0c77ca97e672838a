//! Summaries as JSON.
ghost use Rattle.std.specs.Option.{option_map};
ghost use Rattle.std.specs.Prelude.{◌≡◌, IfOk, drop, string_bytes, take};
ghost use Rattle.der_show.specs.Json.{IsJson, IsNamedJson, text_json};

use crate::words::Words;
use der_base::rules::Rules;
use der_known::KnownTypes;
use std::alloc::{AllocError, Global};
use text_json::shown::{Source, shown_json, typed_json};

/// The summary of octets as a JSON object. Words by a type have typed values.
pub fn json_of_words(
    alloc: Global,
    source: Source<'_>,
    octets: &[u8],
    words: &Words,
) -> Result<String, AllocError>
    ensures { IfOk result (λ text. IsJson source.entry octets.now words.now (string_bytes text)) }
{
    match words.by_type {
        Some(name) => json_by_type(alloc, source, octets, words, name),
        None => json_of_text(alloc, source, words),
    }
}

/// The words of octets by the known type with this name as a JSON object.
fn json_by_type(
    alloc: Global,
    source: Source<'_>,
    octets: &[u8],
    words: &Words,
    name: &str,
) -> Result<String, AllocError>
    ensures { IfOk result (λ text. IsNamedJson source.entry octets.now words.now name.now (string_bytes text)) }
{
    let types = KnownTypes::new();
    match types.type_named(name) {
        Some(schema) => typed_json(alloc, source, octets, Rules::Ber, schema),
        None => json_of_text(alloc, source, words),
    }
}

/// A summary as a JSON object, in which all values are texts.
fn json_of_text(alloc: Global, source: Source<'_>, words: &Words) -> Result<String, AllocError>
    ensures { IfOk result (λ text. string_bytes text ≡ text_json source.entry words.now) }
{
    let (lines, inside) = parts_of(words);
    shown_json(alloc, source, lines, inside, words.keeps_rules)
}

/// The lines before the summary, and the summary.
fn parts_of(words: &Words) -> (&[u8], &[u8])
    ensures lines { result.0.now ≡ take words.now.words_at words.now.text.items }
    ensures inside { result.1.now ≡ drop words.now.words_at words.now.text.items }
{
    let text = words.text.as_slice();
    if words.words_at <= text.len() {
        return text.split_at(words.words_at);
    }
    (text, &[])
}
