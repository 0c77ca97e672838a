//! Summaries of octets in any known format.
ghost use Rattle.std.specs.Option.{option_map};
ghost use Rattle.std.specs.Prelude.{◌≡◌, IfOk, None, Some, true};
ghost use Rattle.der_show.specs.Described.{AreOtherWords, AreTypedWords, AreWordsOf, IsDescribed};

use crate::fields::words_by_fields;
use crate::known::{Known, what_is};
use crate::message::{text_of_key, words_of_message};
use crate::text::summary_of;
use der_known::KnownTypes;
use std::alloc::{AllocError, Global};

/// The summary of octets.
#[derive(Drop)]
pub struct Words {
    /// A line for each field, with its name and its value.
    pub text: Vec<u8>,
    /// The number of octets before the summary proper: the name of a type and the lines of elements
    /// (`words_by_fields`). Else 0.
    pub words_at: usize,
    /// False for a certificate or CRL that breaks a rule of RFC 5280 beyond its ASN.1, and for a message that contains
    /// such a one. Else true.
    pub keeps_rules: bool,
    /// The name of the known type by whose words the octets are summarized. None if it is otherwise.
    pub by_type: Option<&'static str>,
}

/// The summary of the first of these formats that all the octets have: a certificate, a CRL, a certification request, a
/// key (`text_of_key`), a message (`words_of_message`), or another known type (`words_by_fields`). None if they have none
/// of these formats. AllocError if there is no memory.
///
/// `now` is the current time, in seconds since 1970-01-01 00:00:00 UTC. Without it, the summary doesn't tell for how
/// long a certificate is valid.
pub fn words_of(alloc: Global, octets: &[u8], now: Option<u64>) -> Result<Option<Words>, AllocError>
    ensures { IfOk result (λ words. IsDescribed now octets.now words) }
{
    match what_is(octets) {
        Some(known) => words_of_known(alloc, octets, &known, now),
        None => {
            let types = KnownTypes::new();
            other_words(alloc, octets, &types, now)
        }
    }
}

/// The summary of a certificate, CRL or certification request that was read from these octets.
fn words_of_known(
    alloc: Global,
    octets: &[u8],
    known: &Known<'_>,
    now: Option<u64>,
) -> Result<Option<Words>, AllocError>
    ensures { IfOk result (λ words. AreWordsOf now octets.now known.now words) }
{
    let summary = summary_of(alloc, octets, known, now)?;
    Ok(Some(words_alone(summary.text, summary.keeps_rules)))
}

/// The summary of a key, a message, or octets of a known type.
fn other_words(
    alloc: Global,
    octets: &[u8],
    types: &KnownTypes,
    now: Option<u64>,
) -> Result<Option<Words>, AllocError>
    ensures { IfOk result (λ words. AreOtherWords now types.now octets.now words) }
{
    match text_of_key(alloc, octets) {
        Ok(Some(text)) => Ok(Some(words_alone(text, true))),
        Ok(None) => typed_words(alloc, octets, types, now),
        Err(e) => Err(e),
    }
}

/// The summary of a message, or octets of a known type.
fn typed_words(
    alloc: Global,
    octets: &[u8],
    types: &KnownTypes,
    now: Option<u64>,
) -> Result<Option<Words>, AllocError>
    ensures { IfOk result (λ words. AreTypedWords now types.now octets.now words) }
{
    match words_of_message(alloc, octets, types) {
        Ok(Some(words)) => Ok(Some(words)),
        Ok(None) => words_by_fields(alloc, octets, types, now),
        Err(e) => Err(e),
    }
}

/// A summary without lines of elements before it.
pub(crate) fn words_alone(text: Vec<u8>, keeps_rules: bool) -> Words
    ensures text { result.text.items ≡ text.items }
    ensures start { result.words_at ≡ 0 }
    ensures rules { result.keeps_rules ≡ keeps_rules }
    ensures by_type { result.by_type ≡ None }
{
    Words {
        text,
        words_at: 0,
        keeps_rules,
        by_type: None,
    }
}

/// The words of the type with this name.
pub(crate) fn words_by_type(text: Vec<u8>, name: &'static str) -> Words
    ensures text { result.text.items ≡ text.items }
    ensures start { result.words_at ≡ 0 }
    ensures rules { result.keeps_rules ≡ true }
    ensures by_type { option_map (λ n. n.now) result.by_type ≡ Some name.now }
{
    Words {
        text,
        words_at: 0,
        keeps_rules: true,
        by_type: Some(name),
    }
}
