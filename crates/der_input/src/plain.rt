//! Hexadecimal digits and base64, with what may be between them.
ghost use Rattle.std.specs.Prelude.{◌≡◌, ◌⊎◌, ◌≤◌, ◌<◌, ◌==◌, ◌+◌, drop, not, length, filter, take};
ghost use Rattle.std.specs.Prelude.{IfErr, IfOk, IsErr, count_by, find, unwrap_or};
ghost use Rattle.std.specs.List.{flat_map, list_all, position_or_len, range_with_len, slice_split};
ghost use Rattle.std.specs.Char.{is_ascii_hexdigit, is_ascii_whitespace};
ghost use Rattle.base64.specs.Engines.{standard_pad_indifferent};
ghost use Rattle.base64.specs.GeneralPurpose.{decode_of as base64_decode_of};
ghost use Rattle.hex.specs.Hex.{decode_of as hex_decode_of};
ghost use Rattle.der_input.specs.Faults.{IsBase64Error};
ghost use Rattle.der_input.specs.Marks.{Puts, is_separator};
ghost use Rattle.der_input.specs.Numbers.{ends_word};
ghost use Rattle.der_input.specs.Plain.{before_characters, begins_characters, begins_with_zero, behind_offset};
ghost use Rattle.der_input.specs.Plain.{characters_of, digits_of, digits_of_line, digits_of_source, digits_of_word};
ghost use Rattle.der_input.specs.Plain.{ends_offset, is_dump, padded, without_margin, without_prefix};

use crate::characters::put_characters;
use crate::error::FormError;
use crate::escapes::put_escaped;
use crate::fault::Base64Fault;
use crate::marks::{after, behind, is_separator, put, put_all};
use crate::notation::{Notation, in_braces, notation_of};
use crate::numbers::{ends_word, has_prefix, is_prefixed, prefixed_digits, put_numbers};
use base64::DecodeAllocError;
use base64::engine::general_purpose::STANDARD_PAD_INDIFFERENT;
use hex::FromHexError;
use std::alloc::Global;

/// The fewest digits of the first offset in a hex dump.
const OFFSET_DIGITS: usize = 4;

/// Decodes hexadecimal digits. White space, marks, brackets and quotes may be between them, and `0x` before a word; a
/// word of one digit is an octet. In a C array only the text in braces is read, and in a hex dump only the digits
/// between offsets and characters.
pub fn decode_hex(alloc: Global, text: &[u8]) -> Result<Vec<u8>, FormError>
    ensures ok { IfOk result (λ v. hex_decode_of (digits_of text.now) ≡ Ok v.items) }
    ensures err { IfErr result (λ e. (e ≡ FormError.OutOfMemory)
        ⊎ ((e ≡ FormError.Hex) × IsErr (hex_decode_of (digits_of text.now)))) }
{
    let Some(mut room) = room_for(alloc, text) else {
        return Err(FormError::OutOfMemory);
    };
    let Some(end) = put_digits(text, &mut room) else {
        return Err(FormError::OutOfMemory);
    };
    match hex::decode(alloc, &room[..end]) {
        Ok(octets) => Ok(octets),
        Err(FromHexError::OutOfMemory) => Err(FormError::OutOfMemory),
        Err(_) => Err(FormError::Hex),
    }
}

/// Decodes base64 of either alphabet, with or without padding (RFC 4648 4, 5). White space, quotes and the start of a
/// `data:` URL are skipped.
pub fn decode_base64(alloc: Global, text: &[u8]) -> Result<Vec<u8>, FormError>
    ensures ok { IfOk result (λ v. base64_decode_of standard_pad_indifferent (characters_of text.now) ≡ Ok v.items) }
    ensures err { IfErr result (λ e. (e ≡ FormError.OutOfMemory) ⊎ IsBase64Error text.now e) }
{
    let Some(mut room) = room_for(alloc, text) else {
        return Err(FormError::OutOfMemory);
    };
    let Some(end) = put_characters(text, &mut room) else {
        return Err(FormError::OutOfMemory);
    };
    match STANDARD_PAD_INDIFFERENT.decode(alloc, &room[..end]) {
        Ok(octets) => Ok(octets),
        Err(DecodeAllocError::OutOfMemory) => Err(FormError::OutOfMemory),
        Err(DecodeAllocError::DecodeError(e)) => Err(FormError::Base64(Base64Fault::of(text, e))),
    }
}

/// A buffer for the digits of a text, two for each octet.
fn room_for(alloc: Global, text: &[u8]) -> Option<Vec<u8>> {
    let size = text.len().checked_mul(2)?;
    vec![in alloc; 0; size].ok()
}

/// Writes the hexadecimal digits of a text and returns their number. None if `room` is too short.
pub fn put_digits(text: &[u8], room: &mut [u8]) -> Option<usize>
    ensures { Puts room.old 0 (digits_of text.now) room.new result }
{
    match notation_of(text) {
        Some(Notation::Dump) => put_lines(text, room),
        Some(Notation::Escapes) => put_escaped(text, room),
        Some(Notation::Decimal) => put_numbers(in_braces(text), room),
        Some(Notation::Prefixed) => put_source(text, room),
        _ => put_words(in_braces(text), room),
    }
}

/// Writes the digits of each line of a hex dump.
fn put_lines(text: &[u8], room: &mut [u8]) -> Option<usize>
    ensures { Puts room.old 0 (flat_map digits_of_line (slice_split (λ c. c == 0x0a) text.now)) room.new result }
{
    let mut at = 0;
    'lines: for line in text.split(|octet| *octet == b'\n') {
        at = put_line(line, room, at)?;
    }
    Some(at)
}

/// Writes the digits of each word.
fn put_words(text: &[u8], room: &mut [u8]) -> Option<usize>
    ensures { Puts room.old 0 (flat_map digits_of_word (slice_split is_separator text.now)) room.new result }
{
    let mut at = 0;
    'words: for word in text.split(|octet| is_separator(*octet)) {
        at = put_word(word, room, at)?;
    }
    Some(at)
}

/// Writes the digits of each number with `0x` in source code.
fn put_source(text: &[u8], room: &mut [u8]) -> Option<usize>
    ensures { Puts room.old 0 (flat_map digits_of_source (slice_split ends_word text.now)) room.new result }
{
    let mut at = 0;
    'words: for word in text.split(|octet| ends_word(*octet)) {
        at = put_source_word(word, room, at)?;
    }
    Some(at)
}

/// Writes the digits of a word in source code, if it is a number with `0x`.
fn put_source_word(word: &[u8], room: &mut [u8], at: usize) -> Option<usize>
    requires { at ≤ length room.old }
    ensures { Puts room.old at (digits_of_source word.now) room.new result }
{
    if is_prefixed(word) {
        return put_padded(prefixed_digits(word), room, at);
    }
    Some(at)
}

/// Writes the digits of a word at an offset and returns the offset after them.
fn put_word(word: &[u8], room: &mut [u8], at: usize) -> Option<usize>
    requires { at ≤ length room.old }
    ensures { Puts room.old at (digits_of_word word.now) room.new result }
{
    put_padded(without_prefix(word), room, at)
}

/// Writes digits at an offset, with a zero before a single one.
fn put_padded(digits: &[u8], room: &mut [u8], at: usize) -> Option<usize>
    requires { at ≤ length room.old }
    ensures { Puts room.old at (padded digits.now) room.new result }
{
    let begin = if digits.len() == 1 {
        put(room, at, b'0')?
    } else {
        at
    };
    put_all(room, begin, digits)
}

/// A word without its `0x`.
fn without_prefix(word: &[u8]) -> &[u8]
    ensures { result.now ≡ without_prefix word.now }
{
    if has_prefix(word) {
        return behind(word, 2);
    }
    word
}

/// Writes the digits of a line of a hex dump at an offset and returns the offset after them.
fn put_line(line: &[u8], room: &mut [u8], at: usize) -> Option<usize>
    requires { at ≤ length room.old }
    ensures { Puts room.old at (digits_of_line line.now) room.new result }
{
    let digits = before_characters(behind_offset(without_margin(line)));
    put_digits_among(digits, room, at)
}

/// Writes the octets that aren't separators at an offset and returns the offset after them.
fn put_digits_among(octets: &[u8], room: &mut [u8], at: usize) -> Option<usize>
    requires { at ≤ length room.old }
    ensures { Puts room.old at (filter (λ c. not (is_separator c)) octets.now) room.new result }
{
    let mut end = at;
    'octets: for octet in octets {
        if !is_separator(*octet) {
            end = put(room, end, *octet)?;
        }
    }
    Some(end)
}

/// Returns whether a text is a hex dump: it begins with the offset 0.
pub(crate) fn is_dump(text: &[u8]) -> bool
    ensures { result ≡ is_dump text.now }
{
    begins_with_zero(without_margin(text))
}

fn begins_with_zero(text: &[u8]) -> bool
    ensures { result ≡ begins_with_zero text.now }
{
    let zeros = zeros_before(text);
    zeros >= OFFSET_DIGITS && zeros < text.len() && ends_offset(text[zeros])
}

/// The number of zeros that a text begins with.
fn zeros_before(text: &[u8]) -> usize
    ensures first { result ≡ position_or_len (λ c. not (c == 0x30)) text.now }
    ensures within { result ≤ length text.now }
{
    text.iter()
        .position(|octet| *octet != b'0')
        .unwrap_or(text.len())
}

/// The line without its leading white space.
fn without_margin(line: &[u8]) -> &[u8]
    ensures { result.now ≡ without_margin line.now }
{
    &line[margin_of(line)..]
}

/// The length of the leading white space.
fn margin_of(line: &[u8]) -> usize
    ensures first { result ≡ position_or_len (λ c. not (is_ascii_whitespace c)) line.now }
    ensures within { result ≤ length line.now }
{
    line.iter()
        .position(|octet| !octet.is_ascii_whitespace())
        .unwrap_or(line.len())
}

/// A line of a hex dump after its offset, or the whole line if it begins with another word.
fn behind_offset(line: &[u8]) -> &[u8]
    ensures { result.now ≡ behind_offset line.now }
{
    let end = offset_end(line);
    if !are_hexadecimal(&line[..end]) {
        return line;
    }
    after(line, end)
}

/// The end of the offset at the start of a line.
fn offset_end(line: &[u8]) -> usize
    ensures first { result ≡ position_or_len ends_offset line.now }
    ensures within { result ≤ length line.now }
{
    line.iter()
        .position(|octet| ends_offset(*octet))
        .unwrap_or(line.len())
}

fn are_hexadecimal(octets: &[u8]) -> bool
    ensures { result ≡ list_all is_ascii_hexdigit octets.now }
{
    octets.iter().all(|octet| octet.is_ascii_hexdigit())
}

/// A line of a hex dump without its column of characters.
fn before_characters(line: &[u8]) -> &[u8]
    ensures { result.now ≡ before_characters line.now }
{
    let end = characters_begin(line);
    if end >= line.len() {
        return line;
    }
    &line[..end]
}

/// The start of the column of characters on a line of a hex dump, or the length of the line. It goes backwards so that
/// each octet is counted once.
fn characters_begin(line: &[u8]) -> usize
    ensures { result ≡ unwrap_or (find (begins_characters line.now) (range_with_len 0 (length line.now)))
        (length line.now) }
{
    let mut begin = line.len();
    let mut offset = line.len();
    let mut digits = digits_in(line);
    let mut characters = 0;
    'octets: while offset > 0 {
        offset -= 1;
        digits = digits_before(line, offset, digits);
        characters = behind_margin(line, offset, characters);
        if begins_characters(line, offset, digits, characters) {
            begin = offset;
        }
    }
    begin
}

/// Returns whether the column of characters begins at this offset: after digits and two spaces, with no more characters
/// than pairs of digits and two bars.
fn begins_characters(line: &[u8], offset: usize, digits: usize, characters: usize) -> bool
    requires within { offset ≤ length line.now }
    requires digits { digits ≡ count_by is_ascii_hexdigit (take offset line.now) }
    requires characters { characters ≡ length (without_margin (drop offset line.now)) }
    ensures { result ≡ begins_characters line.now offset }
{
    line[offset..].starts_with(b"  ") && digits > 0 && characters <= digits / 2 + 2
}

/// The number of hexadecimal digits before an offset, from that before the next offset.
fn digits_before(line: &[u8], offset: usize, next: usize) -> usize
    requires within { offset < length line.now }
    requires next { next ≡ count_by is_ascii_hexdigit (take (offset + 1) line.now) }
    ensures { result ≡ count_by is_ascii_hexdigit (take offset line.now) }
{
    if line[offset].is_ascii_hexdigit() {
        return next - 1;
    }
    next
}

/// The number of octets after the white space at an offset, from that at the next offset.
fn behind_margin(line: &[u8], offset: usize, next: usize) -> usize
    requires within { offset < length line.now }
    requires next { next ≡ length (without_margin (drop (offset + 1) line.now)) }
    ensures { result ≡ length (without_margin (drop offset line.now)) }
{
    if line[offset].is_ascii_whitespace() {
        return next;
    }
    line.len() - offset
}

/// The number of hexadecimal digits.
fn digits_in(octets: &[u8]) -> usize
    ensures { result ≡ count_by is_ascii_hexdigit octets.now }
{
    octets
        .iter()
        .filter(|octet| octet.is_ascii_hexdigit())
        .count()
}

fn ends_offset(octet: u8) -> bool
    ensures { result ≡ ends_offset octet }
{
    octet.is_ascii_whitespace() || octet == b':'
}
