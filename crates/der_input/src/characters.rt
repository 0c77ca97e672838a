//! The characters of base64 (RFC 4648), with what may be between them.
ghost use Rattle.std.specs.Prelude.{◌≡◌, ◌≢◌, ◌≤◌, ◌<◌, ◌+◌, ◌++◌, [], ◌∷◌, IfSome, IsTrue, drop, length, take, true};
ghost use Rattle.std.specs.List.{list_all};
ghost use Rattle.std.specs.Option.{option_map};
ghost use Rattle.der_input.specs.Marks.{Puts, first_place};
ghost use Rattle.der_input.specs.Plain.{begins_break, behind_headers, behind_line, body_of, character_of};
ghost use Rattle.der_input.specs.Plain.{characters_from, characters_of, is_base64, is_base64_text, is_character};
ghost use Rattle.der_input.specs.Plain.{standard_character, without_address, without_headers};

use crate::marks::{after, behind, is_mark, offset_of, put, put_all};
use crate::search::{contains, find};

/// The octets of an escaped line end, as in JSON.
pub(crate) const BREAK: usize = 2;

/// Returns whether a text is characters of base64 and what may be between them.
pub(crate) fn is_base64_text(text: &[u8]) -> bool
    ensures { result ≡ is_base64_text text.now }
{
    are_base64(without_address(text))
}

fn are_base64(octets: &[u8]) -> bool
    ensures { result ≡ list_all is_base64 octets.now }
{
    octets.iter().all(|octet| is_base64(*octet))
}

fn is_base64(octet: u8) -> bool
    ensures { result ≡ is_base64 octet }
{
    octet.is_ascii_alphanumeric() || octet.is_ascii_whitespace() || is_mark(b"+/-_=\"',;\\", octet)
}

/// Writes the base64 characters of a text and returns their number. None if `room` is too short.
pub fn put_characters(text: &[u8], room: &mut [u8]) -> Option<usize>
    ensures { Puts room.old 0 (characters_of text.now) room.new result }
{
    put_characters_among(body_of(text), room)
}

/// The part of a text that has characters of base64.
pub(crate) fn body_of(text: &[u8]) -> &[u8]
    ensures { result.now ≡ body_of text.now }
{
    without_headers(without_address(text))
}

/// Writes the base64 characters among octets and returns their number.
fn put_characters_among(octets: &[u8], room: &mut [u8]) -> Option<usize>
    ensures { Puts room.old 0 (characters_from 0 octets.now) room.new result }
{
    let mut rest = octets;
    let mut end = 0;
    'octets: while !rest.is_empty() {
        let plain = count_plain(rest);
        if plain > 0 {
            end = put_all(room, end, &rest[..plain])?;
            rest = &rest[plain..];
        } else if begins_break(rest) {
            rest = &rest[BREAK..];
        } else {
            end = put_character(rest[0], room, end)?;
            rest = &rest[1..];
        }
    }
    Some(end)
}

/// The number of letters and digits at the start of a text. They stand for themselves, and most octets are such.
fn count_plain(text: &[u8]) -> usize
    ensures within { result ≤ length text.now }
    ensures plain { characters_from 0 text.now ≡ take result text.now ++ characters_from 0 (drop result text.now) }
{
    for (index, octet) in text.iter().enumerate() {
        if !is_letter_or_digit(*octet) {
            return index;
        }
    }
    text.len()
}

fn is_letter_or_digit(octet: u8) -> bool
    ensures plain { IsTrue result → character_of octet ≡ octet ∷ [] }
    ensures no_break { IsTrue result → octet ≢ 0x5c }
{
    octet.is_ascii_alphabetic() || octet.is_ascii_digit()
}

/// Returns whether a text begins with an escaped line end, as in JSON.
pub(crate) fn begins_break(text: &[u8]) -> bool
    ensures is { result ≡ begins_break text.now }
    ensures long { result ≡ true → 2 ≤ length text.now }
{
    matches!(text, [b'\\', b'n' | b'r', ..])
}

/// Writes an octet, if it is a character of base64, and returns the next offset.
fn put_character(octet: u8, room: &mut [u8], at: usize) -> Option<usize>
    requires { at ≤ length room.old }
    ensures { Puts room.old at (character_of octet) room.new result }
{
    if is_character(octet) {
        return put(room, at, standard_character(octet));
    }
    Some(at)
}

/// The text after `data:` and a comma, or all of it.
fn without_address(text: &[u8]) -> &[u8]
    ensures { result.now ≡ without_address text.now }
{
    if !text.starts_with(b"data:") {
        return text;
    }
    after(text, offset_of(text, b','))
}

/// The text after the headers of a PEM block (RFC 1421 4.4), or all of it.
fn without_headers(text: &[u8]) -> &[u8]
    ensures { result.now ≡ without_headers text.now }
{
    // Most blocks have none.
    if !contains(text, b": ") {
        return text;
    }
    if let Some(rest) = behind_line(text, b"\n\n") {
        return rest;
    }
    if let Some(rest) = behind_line(text, b"\n\r\n") {
        return rest;
    }
    if let Some(rest) = behind_line(text, b"\\n\\n") {
        return rest;
    }
    text
}

/// The text after the first empty line, if headers are before that.
fn behind_line<'t>(text: &'t [u8], line: &[u8]) -> Option<&'t [u8]>
    requires { 0 < length line.now }
    ensures { option_map (λ x. x.now) result ≡ behind_line text.now line.now }
{
    match place_of(text, line) {
        Some(place) => behind_headers(text, place, place + line.len()),
        None => None,
    }
}

/// The text from `end` on, if headers are before `place`.
fn behind_headers(text: &[u8], place: usize, end: usize) -> Option<&[u8]>
    requires { place ≤ length text.now }
    ensures { option_map (λ x. x.now) result ≡ behind_headers text.now place end }
{
    if place_of(&text[..place], b": ").is_some() {
        return Some(behind(text, end));
    }
    None
}

/// The first offset of the needle.
fn place_of(text: &[u8], needle: &[u8]) -> Option<usize>
    requires { 0 < length needle.now }
    ensures place { result ≡ first_place text.now needle.now }
    ensures within { IfSome result (λ k. k + length needle.now ≤ length text.now) }
{
    find(text, needle)
}

pub(crate) fn is_character(octet: u8) -> bool
    ensures { result ≡ is_character octet }
{
    !octet.is_ascii_whitespace() && !is_mark(b"\"'>,;", octet)
}

/// The character of the standard alphabet with the same value (RFC 4648 4, 5).
fn standard_character(octet: u8) -> u8
    ensures { result ≡ standard_character octet }
{
    match octet {
        b'-' => b'+',
        b'_' => b'/',
        _ => octet,
    }
}
