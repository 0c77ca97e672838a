//! Words: their octets, and the forms of lengths that they name.
ghost use Rattle.std.specs.Prelude.{◌≡◌, ◌-◌, IfOk, Some, codes, find};
ghost use Rattle.std.specs.Char.{is_ascii_digit};
ghost use Rattle.std.specs.List.{list_all};
ghost use Rattle.std.specs.Option.{option_and_then, option_copied, option_map};
ghost use Rattle.der_base.specs.Octets.{shortest_integer};
ghost use Rattle.der_text.specs.Looks.{name_of_type, word_in};
ghost use Rattle.der_text.specs.Words.{complements, decimal_number, identifier_octets, integer_octets, is_dotted};
ghost use Rattle.der_text.specs.Words.{basic_types, constructed_types, in_table, known_octets, negative_octets};
ghost use Rattle.der_text.specs.Words.{other_types, same, string_types, value_words, word_form, word_octets};

use crate::item::Form;
use der_base::error::OidParseError;
use der_base::oid::Oid;
use der_values::octets::header::{integer_octet_count, write_integer};
use std::alloc::{AllocError, Global};
use std::str;

/// Types other than strings and times.
const BASIC_TYPES: [(&[u8], &[u8]); 9] = [
    (b"BOOLEAN", b"\x01"),
    (b"INTEGER", b"\x02"),
    (b"BIT_STRING", b"\x03"),
    (b"OCTET_STRING", b"\x04"),
    (b"NULL", b"\x05"),
    (b"OBJECT_IDENTIFIER", b"\x06"),
    (b"REAL", b"\x09"),
    (b"ENUMERATED", b"\x0a"),
    (b"RELATIVE-OID", b"\x0d"),
];

/// Types with constructed elements.
const CONSTRUCTED_TYPES: [(&[u8], &[u8]); 5] = [
    (b"SEQUENCE", b"\x30"),
    (b"SET", b"\x31"),
    (b"EXTERNAL", b"\x28"),
    (b"EMBEDDED_PDV", b"\x2b"),
    (b"CHARACTER_STRING", b"\x3d"),
];

/// String types.
const STRING_TYPES: [(&[u8], &[u8]); 8] = [
    (b"UTF8String", b"\x0c"),
    (b"NumericString", b"\x12"),
    (b"PrintableString", b"\x13"),
    (b"T61String", b"\x14"),
    (b"VideotexString", b"\x15"),
    (b"IA5String", b"\x16"),
    (b"GraphicString", b"\x19"),
    (b"VisibleString", b"\x1a"),
];

/// Further string types, and times.
const OTHER_TYPES: [(&[u8], &[u8]); 6] = [
    (b"ObjectDescriptor", b"\x07"),
    (b"UTCTime", b"\x17"),
    (b"GeneralizedTime", b"\x18"),
    (b"GeneralString", b"\x1b"),
    (b"UniversalString", b"\x1c"),
    (b"BMPString", b"\x1e"),
];

/// The contents of a BOOLEAN (X.690 8.2), and end-of-contents octets (8.1.5).
const VALUE_WORDS: [(&[u8], &[u8]); 3] = [
    (b"TRUE", b"\xff"),
    (b"FALSE", b"\x00"),
    (b"END", b"\x00\x00"),
];

/// The octets of a word, if it has any.
#[tactic(auto, unfolding(crate::specs::Words::word_octets))]
pub(crate) fn word_octets(alloc: Global, word: &[u8]) -> Result<Option<Vec<u8>>, AllocError>
    ensures { IfOk result (λ found. option_map (λ v. v.items) found ≡ word_octets word.now) }
{
    if let Some(octets) = known_octets(word) {
        let octets = Vec::from_slice(alloc, octets)?;
        return Ok(Some(octets));
    }
    if let Some(octets) = integer_octets(alloc, word)? {
        return Ok(Some(octets));
    }
    identifier_octets(alloc, word)
}

/// The octets of a word in a table.
#[tactic(auto, unfolding(crate::specs::Words::known_octets))]
fn known_octets(word: &[u8]) -> Option<&'static [u8]>
    ensures { option_map (λ o. o.now) result ≡ known_octets word.now }
{
    if let Some(octets) = basic_type(word) {
        return Some(octets);
    }
    if let Some(octets) = constructed_type(word) {
        return Some(octets);
    }
    if let Some(octets) = string_type(word) {
        return Some(octets);
    }
    if let Some(octets) = other_type(word) {
        return Some(octets);
    }
    value_octets(word)
}

fn basic_type(word: &[u8]) -> Option<&'static [u8]>
    ensures { option_map (λ o. o.now) result ≡ in_table basic_types word.now }
{
    let (_, octets) = row_of(&BASIC_TYPES, word)?;
    Some(octets)
}

fn constructed_type(word: &[u8]) -> Option<&'static [u8]>
    ensures { option_map (λ o. o.now) result ≡ in_table constructed_types word.now }
{
    let (_, octets) = row_of(&CONSTRUCTED_TYPES, word)?;
    Some(octets)
}

fn string_type(word: &[u8]) -> Option<&'static [u8]>
    ensures { option_map (λ o. o.now) result ≡ in_table string_types word.now }
{
    let (_, octets) = row_of(&STRING_TYPES, word)?;
    Some(octets)
}

fn other_type(word: &[u8]) -> Option<&'static [u8]>
    ensures { option_map (λ o. o.now) result ≡ in_table other_types word.now }
{
    let (_, octets) = row_of(&OTHER_TYPES, word)?;
    Some(octets)
}

fn value_octets(word: &[u8]) -> Option<&'static [u8]>
    ensures { option_map (λ o. o.now) result ≡ in_table value_words word.now }
{
    let (_, octets) = row_of(&VALUE_WORDS, word)?;
    Some(octets)
}

/// The first row with this word.
fn row_of<'r>(
    rows: &'r [(&'static [u8], &'static [u8])],
    word: &[u8],
) -> Option<&'r (&'static [u8], &'static [u8])>
    ensures { option_copied result ≡ find (λ row. same row.0.now word.now) rows.now }
{
    rows.iter().find(|(name, _)| *name == word)
}

/// The name of the universal type with these identifier octets.
pub(crate) fn type_name(identifier: &[u8]) -> Option<&'static [u8]>
    ensures { option_map (λ n. n.now) result ≡ name_of_type identifier.now }
{
    if let Some(name) = basic_name(identifier) {
        return Some(name);
    }
    if let Some(name) = constructed_name(identifier) {
        return Some(name);
    }
    if let Some(name) = string_name(identifier) {
        return Some(name);
    }
    other_name(identifier)
}

fn basic_name(identifier: &[u8]) -> Option<&'static [u8]>
    ensures { option_map (λ n. n.now) result ≡ word_in basic_types identifier.now }
{
    name_in(&BASIC_TYPES, identifier)
}

fn constructed_name(identifier: &[u8]) -> Option<&'static [u8]>
    ensures { option_map (λ n. n.now) result ≡ word_in constructed_types identifier.now }
{
    name_in(&CONSTRUCTED_TYPES, identifier)
}

fn string_name(identifier: &[u8]) -> Option<&'static [u8]>
    ensures { option_map (λ n. n.now) result ≡ word_in string_types identifier.now }
{
    name_in(&STRING_TYPES, identifier)
}

fn other_name(identifier: &[u8]) -> Option<&'static [u8]>
    ensures { option_map (λ n. n.now) result ≡ word_in other_types identifier.now }
{
    name_in(&OTHER_TYPES, identifier)
}

/// The word with these octets.
fn name_in(rows: &[(&'static [u8], &'static [u8])], identifier: &[u8]) -> Option<&'static [u8]>
    ensures { option_map (λ n. n.now) result
        ≡ option_map (λ row. row.0.now) (find (λ row. same row.1.now identifier.now) rows.now) }
{
    let (name, _) = rows.iter().find(|(_, octets)| *octets == identifier)?;
    Some(name)
}

/// The content octets of an INTEGER in decimal: the fewest, in two's complement (X.690 8.3.2).
#[tactic(auto, unfolding(crate::specs::Words::integer_octets))]
fn integer_octets(alloc: Global, word: &[u8]) -> Result<Option<Vec<u8>>, AllocError>
    ensures { IfOk result (λ found. option_map (λ v. v.items) found ≡ integer_octets word.now) }
{
    match word.strip_prefix(b"-") {
        Some(digits) => negative_octets(alloc, digits),
        None => positive_octets(alloc, word),
    }
}

/// The fewest octets of a positive decimal number.
fn positive_octets(alloc: Global, digits: &[u8]) -> Result<Option<Vec<u8>>, AllocError>
    ensures { IfOk result
        (λ found. option_map (λ v. v.items) found ≡ option_map shortest_integer (decimal_number digits.now)) }
{
    let Some(number) = decimal_number(digits) else {
        return Ok(None);
    };
    let mut room = [0; 9];
    let octets = Vec::from_slice(alloc, number_octets(&mut room, number))?;
    Ok(Some(octets))
}

/// The fewest octets of a negative decimal number, given its digits.
fn negative_octets(alloc: Global, digits: &[u8]) -> Result<Option<Vec<u8>>, AllocError>
    ensures { IfOk result (λ found. option_map (λ v. v.items) found
        ≡ option_and_then negative_octets (decimal_number digits.now)) }
{
    let Some(number) = decimal_number(digits) else {
        return Ok(None);
    };
    if number == 0 {
        return Ok(None);
    }
    let mut room = [0; 9];
    let octets = complements(alloc, number_octets(&mut room, number - 1))?;
    Ok(Some(octets))
}

/// The fewest octets of a number (X.690 8.3.2).
#[tactic(auto, using(der_values::proofs::OctetsLaws::Room::puts_tail))]
fn number_octets(room: &mut [u8; 9], number: u64) -> &[u8]
    ensures { result.now ≡ shortest_integer number }
{
    let begin = 9 - integer_octet_count(number);
    write_integer(room, 9, number);
    &room[begin..]
}

/// The octets with each bit complemented.
fn complements(alloc: Global, octets: &[u8]) -> Result<Vec<u8>, AllocError>
    ensures { IfOk result (λ v. v.items ≡ complements octets.now) }
{
    octets.iter().map(|octet| 255 - *octet).collect(alloc)
}

/// The number in decimal digits, up to 2^64-1.
pub(crate) fn decimal_number(digits: &[u8]) -> Option<u64>
    ensures { result ≡ decimal_number digits.now }
{
    if !are_digits(digits) {
        return None;
    }
    let Ok(text) = str::from_utf8(digits) else {
        return None;
    };
    text.parse().ok()
}

/// Returns whether octets are digits.
fn are_digits(text: &[u8]) -> bool
    ensures { result ≡ list_all is_ascii_digit text.now }
{
    text.iter().all(|octet| octet.is_ascii_digit())
}

/// The content octets of an OBJECT IDENTIFIER in dotted form (X.690 8.19).
#[tactic(auto, unfolding(crate::specs::Words::identifier_octets))]
fn identifier_octets(alloc: Global, word: &[u8]) -> Result<Option<Vec<u8>>, AllocError>
    ensures { IfOk result (λ found. option_map (λ v. v.items) found ≡ identifier_octets word.now) }
{
    if !are_dotted(word) {
        return Ok(None);
    }
    let Ok(text) = str::from_utf8(word) else {
        return Ok(None);
    };
    match Oid::from_dotted(alloc, text) {
        Ok(identifier) => {
            let octets = Vec::from_slice(alloc, identifier.as_bytes())?;
            Ok(Some(octets))
        }
        Err(OidParseError::OutOfMemory) => Err(AllocError),
        Err(_) => Ok(None),
    }
}

/// Returns whether octets are digits and dots.
fn are_dotted(text: &[u8]) -> bool
    ensures { result ≡ list_all is_dotted text.now }
{
    text.iter().all(|octet| is_dotted(*octet))
}

/// Returns whether an octet is a digit or a dot.
fn is_dotted(octet: u8) -> bool
    ensures { result ≡ is_dotted octet }
{
    octet.is_ascii_digit() || octet == b'.'
}

/// The form of length octets with this name (X.690 8.1.3).
#[tactic(auto, unfolding(crate::specs::Words::word_form))]
pub(crate) fn word_form(word: &[u8]) -> Option<Form>
    ensures { result ≡ word_form word.now }
{
    if word == b"indefinite".as_slice() {
        return Some(Form::Indefinite);
    }
    let digits = word.strip_prefix(b"long-form:")?;
    let count = decimal_number(digits)?;
    match u8::try_from(count) {
        Ok(count) => Some(Form::Long(count)),
        Err(_) => None,
    }
}
