//! Strings with escapes, as C, Go, Java, Python and Rust write octets (C11 6.4.4.4, 6.4.5).
ghost use Rattle.std.specs.Prelude.{◌≡◌, ◌≤◌, ◌<◌, ◌==◌, true, find, length};
ghost use Rattle.std.specs.List.{list_all};
ghost use Rattle.std.specs.Option.{option_copied};
ghost use Rattle.der_input.specs.Escapes.{begins_escape, begins_hex, begins_octal, begins_quote, digits_from};
ghost use Rattle.der_input.specs.Escapes.{escaped_digits, has_escape, is_ascii, is_escaped, is_octal, octal_of};
ghost use Rattle.der_input.specs.Escapes.{is_quote, part_digits, part_size, quote_of, simple_digits};
ghost use Rattle.der_input.specs.Marks.{Puts};

use crate::marks::{after, behind, is_mark, offset_of, put, put_all, put_pair};

/// The octets of `\x30` and `\060`.
const ESCAPE: usize = 4;

/// Returns whether a text is ASCII with an escape such as `\x30` or `\060`.
pub(crate) fn is_escaped(text: &[u8]) -> bool
    ensures { result ≡ is_escaped text.now }
{
    are_ascii(text) && has_escape(text)
}

fn are_ascii(text: &[u8]) -> bool
    ensures { result ≡ list_all is_ascii text.now }
{
    text.iter().all(|octet| is_ascii(*octet))
}

fn is_ascii(octet: u8) -> bool
    ensures { result ≡ is_ascii octet }
{
    octet < 0x80
}

fn has_escape(text: &[u8]) -> bool
    ensures { result ≡ has_escape text.now }
{
    let mut rest = text;
    'octets: while !rest.is_empty() {
        if begins_escape(rest) {
            return true;
        }
        rest = &rest[1..];
    }
    false
}

fn begins_escape(text: &[u8]) -> bool
    ensures { result ≡ begins_escape text.now }
{
    begins_hex(text) || begins_octal(text)
}

/// Returns whether a text begins with a backslash, x and two hexadecimal digits.
fn begins_hex(text: &[u8]) -> bool
    ensures { result ≡ begins_hex text.now }
{
    text.starts_with(b"\\x")
        && text.len() >= ESCAPE
        && text[2].is_ascii_hexdigit()
        && text[3].is_ascii_hexdigit()
}

/// Returns whether a text begins with a backslash and three octal digits, up to 377.
fn begins_octal(text: &[u8]) -> bool
    ensures { result ≡ begins_octal text.now }
{
    text.starts_with(b"\\")
        && text.len() >= ESCAPE
        && is_octal(text[1])
        && text[1] < b'4'
        && is_octal(text[2])
        && is_octal(text[3])
}

fn is_octal(octet: u8) -> bool
    ensures { result ≡ is_octal octet }
{
    matches!(octet, b'0'..=b'7')
}

/// The octet of a backslash and three octal digits.
fn octal_of(text: &[u8]) -> u8
    requires { begins_octal text.now ≡ true }
    ensures { result ≡ octal_of text.now }
{
    64 * (text[1] - b'0') + 8 * (text[2] - b'0') + (text[3] - b'0')
}

/// Writes the octets of an escaped text as hexadecimal digits and returns their number. If a quote is before the first
/// backslash, only the quoted strings are read. None if `room` is too short.
pub(crate) fn put_escaped(text: &[u8], room: &mut [u8]) -> Option<usize>
    ensures { Puts room.old 0 (escaped_digits text.now) room.new result }
{
    match quote_of(text) {
        Some(quote) => put_string(Some(quote), after(text, offset_of(text, quote)), room),
        None => put_string(None, text, room),
    }
}

/// The quote of the first string: the first quote, if no backslash is before it.
fn quote_of(text: &[u8]) -> Option<u8>
    ensures { result ≡ quote_of text.now }
{
    match first_quote(&text[..offset_of(text, b'\\')]) {
        Some(quote) => Some(*quote),
        None => None,
    }
}

fn first_quote(text: &[u8]) -> Option<&u8>
    ensures { option_copied result ≡ find is_quote text.now }
{
    text.iter().find(|octet| is_quote(**octet))
}

fn is_quote(octet: u8) -> bool
    ensures { result ≡ is_quote octet }
{
    octet == b'"' || octet == b'\''
}

/// Writes the digits of a string's parts, and a backslash if a quote isn't closed.
fn put_string(quote: Option<u8>, text: &[u8], room: &mut [u8]) -> Option<usize>
    ensures { Puts room.old 0 (digits_from quote 0 text.now) room.new result }
{
    let mut rest = text;
    let mut end = 0;
    'parts: while !rest.is_empty() {
        let size = part_size(quote, rest);
        end = put_part(quote, rest, room, end)?;
        if size > rest.len() {
            return Some(end);
        }
        let others = behind(rest, size);
        rest = others;
    }
    match quote {
        Some(_) => put(room, end, b'\\'),
        None => Some(end),
    }
}

/// The octets of the first part of a string: an escape, a character, or the end of a string with all before the next
/// string. It may be one more than there are.
fn part_size(quote: Option<u8>, text: &[u8]) -> usize
    requires { 0 < length text.now }
    ensures size { result ≡ part_size quote text.now }
    ensures some { 0 < result }
{
    if begins_escape(text) {
        return ESCAPE;
    }
    if text.starts_with(b"\\") {
        return 2;
    }
    if begins_quote(quote, text) {
        return offset_of(&text[1..], text[0]) + 2;
    }
    1
}

/// Writes the digits of the octet that the first part of a string stands for, if any.
fn put_part(quote: Option<u8>, text: &[u8], room: &mut [u8], at: usize) -> Option<usize>
    requires some { 0 < length text.now }
    requires within { at ≤ length room.old }
    ensures { Puts room.old at (part_digits quote text.now) room.new result }
{
    if begins_hex(text) {
        return put_all(room, at, &[text[2], text[3]]);
    }
    if begins_octal(text) {
        return put_pair(room, at, octal_of(text));
    }
    if text.starts_with(b"\\") {
        return put_all(room, at, simple_digits(text.get(1).copied().unwrap_or(0)));
    }
    if begins_quote(quote, text) || text[0] == b'\n' || text[0] == b'\r' {
        return Some(at);
    }
    put_pair(room, at, text[0])
}

/// The digits of the octet that a backslash and another octet stand for (C11 6.4.4.4). A line end stands for none, and
/// a backslash without a meaning for itself.
fn simple_digits(octet: u8) -> &'static [u8]
    ensures { result.now ≡ simple_digits octet }
{
    match octet {
        b'n' => b"0a",
        b'r' => b"0d",
        b't' => b"09",
        b'0' => b"00",
        b'a' => b"07",
        b'b' => b"08",
        b'f' => b"0c",
        b'v' => b"0b",
        b'\\' => b"5c",
        b'"' => b"22",
        b'\'' => b"27",
        b'?' => b"3f",
        b'\n' | b'\r' => b"",
        _ => b"\\",
    }
}

/// Returns whether a text begins with the quote of its string.
fn begins_quote(quote: Option<u8>, text: &[u8]) -> bool
    ensures { result ≡ begins_quote quote text.now }
{
    match quote {
        Some(octet) => text.starts_with(&[octet]),
        None => false,
    }
}
