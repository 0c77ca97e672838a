//! The start of a text: white space, a comment, a brace, octets or a word.
ghost use Rattle.std.specs.Prelude.{◌≡◌, ◌+◌, ◌^◌, ◌<◌, ◌≤◌, ◌==◌, [], ◌∷◌, IfOk, IfSome, Ok, Some};
ghost use Rattle.std.specs.Prelude.{drop, length, not, position, take};
ghost use Rattle.std.specs.List.{prefix_len};
ghost use Rattle.std.specs.Option.{option_copied, option_map};
ghost use Rattle.hex.specs.Hex.{decode_of};
ghost use Rattle.der_text.specs.Lexemes.{Lexes, brace_after, delimited, ends_part, if_decoded, is_blank, is_word};
ghost use Rattle.der_text.specs.Lexemes.{lexeme, octet_items, part_before, word};
ghost use Rattle.der_text.specs.Words.{tag_octets};

use crate::error::Problem;
use crate::item::{Form, Item};
use crate::tag::tag_octets;
use crate::word::{word_form, word_octets};
use hex::FromHexError;
use std::alloc::{AllocError, Global};

/// The items that a text begins with, and the number of octets that they take after the first.
#[tactic(auto, unfolding(crate::specs::Lexemes::lexeme))]
pub(crate) fn read_lexeme(
    alloc: Global,
    text: &[u8],
    first: u8,
    after: &[u8],
) -> Result<(Vec<Item>, usize), Problem>
    requires { text.now ≡ first ∷ after.now }
    ensures { Lexes (lexeme first after.now) result }
{
    match first {
        b' ' | b'\t' | b'\n' | b'\r' => Ok((Vec::new(alloc), 0)),
        b'#' => Ok((Vec::new(alloc), line_length(after))),
        b'{' => one_item(alloc, Item::Open(Form::Shortest, text.len()), 0),
        b'}' => one_item(alloc, Item::Close(text.len()), 0),
        b'"' => quoted(alloc, after),
        b'`' => hexadecimal(alloc, after),
        b'[' => tag(alloc, after),
        _ => word(alloc, text),
    }
}

/// The number of octets before the end of the line.
fn line_length(text: &[u8]) -> usize
    ensures { result ≡ prefix_len (λ x. not (x == 10)) text.now }
{
    text.iter().take_while(|octet| **octet != b'\n').count()
}

/// One item, and the number of octets that it takes.
fn one_item(alloc: Global, item: Item, used: usize) -> Result<(Vec<Item>, usize), Problem>
    ensures { Lexes (Ok (item ∷ [], used)) result }
{
    let mut items = Vec::new(alloc);
    items.push(item)?;
    Ok((items, used))
}

/// Octets as items.
fn octet_items(alloc: Global, octets: &[u8]) -> Result<Vec<Item>, AllocError>
    ensures { IfOk result (λ v. v.items ≡ octet_items octets.now) }
{
    octets
        .iter()
        .map(|octet| Item::Octet(*octet))
        .collect(alloc)
}

/// The part of a line before a delimiter.
fn part_before(delimiter: u8, text: &[u8]) -> Option<&[u8]>
    ensures { option_copied result ≡ part_before delimiter text.now }
{
    let length = part_length(delimiter, text)?;
    if text[length] == delimiter {
        Some(&text[..length])
    } else {
        None
    }
}

/// The number of octets before the first delimiter or line end, if there is one.
fn part_length(delimiter: u8, text: &[u8]) -> Option<usize>
    ensures value { result ≡ position (ends_part delimiter) text.now }
    ensures within { IfSome result (λ n. n < length text.now) }
{
    text.iter()
        .position(|octet| *octet == delimiter || *octet == b'\n')
}

/// Reads octets in quotes.
fn quoted(alloc: Global, after: &[u8]) -> Result<(Vec<Item>, usize), Problem>
    ensures { Lexes (delimited Problem.Quote Some (part_before 34 after.now)) result }
{
    let Some(octets) = part_before(b'"', after) else {
        return Err(Problem::Quote);
    };
    let items = octet_items(alloc, octets)?;
    Ok((items, octets.len() + 1))
}

/// Reads hexadecimal octets.
fn hexadecimal(alloc: Global, after: &[u8]) -> Result<(Vec<Item>, usize), Problem>
    ensures { Lexes (delimited Problem.Hexadecimal (λ w. if_decoded (decode_of w)) (part_before 96 after.now)) result }
{
    let Some(digits) = part_before(b'`', after) else {
        return Err(Problem::Hexadecimal);
    };
    let Some(octets) = decoded(alloc, digits)? else {
        return Err(Problem::Hexadecimal);
    };
    let items = octet_items(alloc, &octets)?;
    Ok((items, digits.len() + 1))
}

/// Decodes pairs of hexadecimal digits.
fn decoded(alloc: Global, digits: &[u8]) -> Result<Option<Vec<u8>>, AllocError>
    ensures { IfOk result (λ found. option_map (λ v. v.items) found ≡ if_decoded (decode_of digits.now)) }
{
    match hex::decode(alloc, digits) {
        Ok(octets) => Ok(Some(octets)),
        Err(FromHexError::OutOfMemory) => Err(AllocError),
        Err(_) => Ok(None),
    }
}

/// Reads a tag in brackets.
fn tag(alloc: Global, after: &[u8]) -> Result<(Vec<Item>, usize), Problem>
    ensures { Lexes (delimited Problem.Tag tag_octets (part_before 93 after.now)) result }
{
    let Some(tag) = part_before(b']', after) else {
        return Err(Problem::Tag);
    };
    let Some(octets) = tag_octets(alloc, tag)? else {
        return Err(Problem::Tag);
    };
    let items = octet_items(alloc, &octets)?;
    Ok((items, tag.len() + 1))
}

/// Reads a word, or the form of a length and a brace.
fn word(alloc: Global, text: &[u8]) -> Result<(Vec<Item>, usize), Problem>
    ensures { Lexes (word (length text.now) text.now) result }
{
    let (word, after) = split_word(text);
    if let Some(octets) = word_octets(alloc, word)? {
        let items = octet_items(alloc, &octets)?;
        return Ok((items, word.len().saturating_sub(1)));
    }
    match word_form(word) {
        Some(form) => brace_after(alloc, form, text.len(), word.len(), after),
        None => Err(Problem::Word),
    }
}

/// The word that a text begins with, and the text after it.
fn split_word(text: &[u8]) -> (&[u8], &[u8])
    ensures word { result.0.now ≡ take (prefix_len is_word text.now) text.now }
    ensures after { result.1.now ≡ drop (prefix_len is_word text.now) text.now }
    ensures length { length result.0.now ≡ prefix_len is_word text.now }
{
    text.split_at(word_length(text))
}

/// The number of word octets that a text begins with.
fn word_length(text: &[u8]) -> usize
    ensures count { result ≡ prefix_len is_word text.now }
    ensures within { result ≤ length text.now }
{
    text.iter().take_while(|octet| is_word(**octet)).count()
}

/// Returns whether an octet may be in a word: letters, digits and `-`, `.`, `:`, `_`.
pub(crate) fn is_word(octet: u8) -> bool
    ensures { result ≡ is_word octet }
{
    octet.is_ascii_alphanumeric() || matches!(octet, b'-' | b'.' | b':' | b'_')
}

/// Reads the brace after the form of a length, which took `used` octets.
fn brace_after(
    alloc: Global,
    form: Form,
    left: usize,
    used: usize,
    after: &[u8],
) -> Result<(Vec<Item>, usize), Problem>
    requires { used + length after.now < 2 ^ 63 }
    ensures { Lexes (brace_after form left used after.now) result }
{
    let blanks = blank_length(after);
    match after.get(blanks) {
        Some(b'{') => one_item(alloc, Item::Open(form, left), used + blanks),
        _ => Err(Problem::NoBrace),
    }
}

/// The number of white space octets that a text begins with.
fn blank_length(text: &[u8]) -> usize
    ensures count { result ≡ prefix_len is_blank text.now }
    ensures within { result ≤ length text.now }
{
    text.iter().take_while(|octet| is_blank(**octet)).count()
}

/// Returns whether an octet is white space.
fn is_blank(octet: u8) -> bool
    ensures { result ≡ is_blank octet }
{
    matches!(octet, b' ' | b'\t' | b'\n' | b'\r')
}
