//! Inputs of a known type, with the names of their fields.
ghost use Rattle.std.specs.Prelude.{◌≡◌, ◌↔◌, IfOk, IsTrue};
ghost use Rattle.der_schema.specs.Known.{IsOfType};
ghost use Rattle.der_schema.specs.Meaning.{root_of};
ghost use Rattle.der_show.specs.FieldLines.{AreWordsFrom};
ghost use Rattle.der_show.specs.ByTypes.{AreLinesAlone, AreTypeWords, IsInWords, IsReadFirst, has_title};
ghost use Rattle.der_show.specs.Fields.{AreWordsAs, AreWordsByFields, AreWordsOfType, IsByFields, IsReadAlone};
ghost use Rattle.der_show.specs.Fields.{IsShownAs};

use crate::field_lines::{Written, with_lines};
use crate::words::{Words, words_alone, words_by_type};
use der_base::rules::Rules;
use der_known::KnownTypes;
use der_schema::schema::Component;
use der_schema::words::Notation;
use der_schema::{Schema, is_of_type};
use std::alloc::{AllocError, Global};
use type_words::words_text;

/// A text for octets by the first of these types that they have by BER: the words of the type, if it has some, or else
/// its name, a line for each element with the name of its field, and summaries. A certificate, CRL or certification
/// request among the elements has a summary, and no lines for the elements in it. A secret value isn't written.
///
/// None if the octets have none of these types. None too for a private key, since it is secret, and for a certificate,
/// CRL or certification request, since its reader has rejected it and `why_unread` says why. AllocError if there is no
/// memory. `now` is as in `words_of`.
pub fn words_by_fields(
    alloc: Global,
    octets: &[u8],
    types: &KnownTypes,
    now: Option<u64>,
) -> Result<Option<Words>, AllocError>
    ensures { IfOk result (λ words. IsByFields now types.now octets.now words) }
{
    match types.type_of(octets, Rules::Ber) {
        Some(schema) => {
            if is_read_alone(schema.name) {
                Ok(None)
            } else {
                Ok(Some(words_of_type(alloc, octets, schema, now)?))
            }
        }
        None => Ok(None),
    }
}

/// A text for octets that have this type by BER: its words if they begin with a title, or else as in `words_by_fields`.
/// None if they don't have it. AllocError if there is no memory. `now` is as in `words_of`.
pub fn words_as(
    alloc: Global,
    octets: &[u8],
    schema: Schema<'_>,
    now: Option<u64>,
) -> Result<Option<Words>, AllocError>
    ensures { IfOk result (λ words. IsShownAs now schema.entry octets.now words) }
{
    if is_of_type(octets, Rules::Ber, schema) {
        return Ok(Some(words_as_type(alloc, octets, schema, now)?));
    }
    Ok(None)
}

/// The text for octets that have a type that isn't a known one.
fn words_as_type(
    alloc: Global,
    octets: &[u8],
    schema: Schema<'_>,
    now: Option<u64>,
) -> Result<Words, AllocError>
    ensures { IsOfType (root_of schema.entry) Rules.Ber octets.now
        → IfOk result (AreWordsAs now schema.entry octets.now) }
{
    if has_title(schema.components) {
        lines_alone(alloc, octets, schema)
    } else {
        fields_of_type(alloc, octets, schema, now)
    }
}

/// The words of a type, without its name.
fn lines_alone(alloc: Global, octets: &[u8], schema: Schema<'_>) -> Result<Words, AllocError>
    ensures { IsOfType (root_of schema.entry) Rules.Ber octets.now
        → IfOk result (AreLinesAlone schema.entry octets.now) }
{
    let (text, _end) = words_text(alloc, octets, Rules::Ber, schema)?;
    Ok(words_alone(text, true))
}

/// Whether the type with this name is only shown by its own reader.
fn is_read_alone(name: &str) -> bool
    ensures { IsTrue result ↔ IsReadAlone name.now }
{
    match name {
        "Certificate" => true,
        "CertificateList" => true,
        "CertificationRequest" => true,
        "PrivateKeyInfo" => true,
        "RSAPrivateKey" => true,
        "ECPrivateKey" => true,
        _ => false,
    }
}

/// The text for octets that have a type.
fn words_of_type(
    alloc: Global,
    octets: &[u8],
    schema: Schema<'_>,
    now: Option<u64>,
) -> Result<Words, AllocError>
    ensures { IsOfType (root_of schema.entry) Rules.Ber octets.now
        → IfOk result (AreWordsOfType now schema.entry octets.now) }
{
    if is_in_words(schema) {
        type_words(alloc, octets, schema)
    } else {
        fields_of_type(alloc, octets, schema, now)
    }
}

/// Whether the words of a type are shown: it has a title, and no reader has refused the octets.
fn is_in_words(schema: Schema<'_>) -> bool
    ensures { IsTrue result ↔ IsInWords schema.entry }
{
    has_title(schema.components) && !is_read_first(schema.name)
}

/// Whether the words of a type begin with a title.
fn has_title(components: &'static [Component]) -> bool
    ensures { result ≡ has_title components.now }
{
    match components {
        [first, ..] => match first.words {
            Some(words) => matches!(words.notation, Notation::Title),
            None => false,
        },
        [] => false,
    }
}

/// Whether the type with this name is only shown in words if its reader takes the octets.
fn is_read_first(name: &str) -> bool
    ensures { IsTrue result ↔ IsReadFirst name.now }
{
    matches!(name, "Message" | "LDAPMessage" | "AS-REQ")
}

/// The words of a type for octets that have it.
fn type_words(alloc: Global, octets: &[u8], schema: Schema<'_>) -> Result<Words, AllocError>
    ensures { IsOfType (root_of schema.entry) Rules.Ber octets.now
        → IfOk result (AreTypeWords schema.entry octets.now) }
{
    let (text, _end) = words_text(alloc, octets, Rules::Ber, schema)?;
    Ok(words_by_type(text, schema.name))
}

/// The lines of the fields of octets that have a type, and the summaries.
fn fields_of_type(
    alloc: Global,
    octets: &[u8],
    schema: Schema<'_>,
    now: Option<u64>,
) -> Result<Words, AllocError>
    ensures { IsOfType (root_of schema.entry) Rules.Ber octets.now
        → IfOk result (AreWordsByFields now schema.entry octets.now) }
{
    let mut lines = Vec::new(alloc);
    lines.extend_from_slice(schema.name.as_bytes())?;
    lines.push(b'\n')?;
    let front = Written {
        lines,
        words: Vec::new(alloc),
        keeps_rules: true,
    };
    let written = with_lines(alloc, front, octets, schema, now)?;
    words_from(written)
}

/// The text from the lines and the summaries.
fn words_from(written: Written) -> Result<Words, AllocError>
    ensures { IfOk result (AreWordsFrom written) }
{
    let mut text = written.lines;
    let words_at = text.len();
    text.extend_from_slice(&written.words)?;
    Ok(Words {
        text,
        words_at,
        keeps_rules: written.keeps_rules,
        by_type: None,
    })
}
