//! Detects the notation of octets in a text.
ghost use Rattle.std.specs.Prelude.{◌≡◌};
ghost use Rattle.std.specs.Char.{is_ascii_hexdigit};
ghost use Rattle.std.specs.List.{list_all, list_any};
ghost use Rattle.der_input.specs.Plain.{are_digits, in_braces, is_hex, notation_of};

use crate::characters::is_base64_text;
use crate::escapes::is_escaped;
use crate::marks::{after, is_mark, is_separator, offset_of};
use crate::numbers::{are_numbers, has_numbers};
use crate::plain::is_dump;

/// The notation of octets in a text. If several fit, it is the first of them.
#[derive(Clone, Copy, Debug, PartialEq)]
pub(crate) enum Notation {
    /// A hex dump: lines of hexadecimal digits with offsets. Only a dump begins with the offset 0. The characters
    /// beside its digits may look like anything.
    Dump,
    /// A string with escapes such as `\x30`. No other notation has a backslash with a number.
    Escapes,
    /// Decimal numbers, such as `[48, 130, -1]`: one isn't an octet in hexadecimal.
    Decimal,
    /// Hexadecimal digits. `3003020105` may be base64 too, but base64 of an element almost always has other letters.
    Digits,
    /// In base64.
    Base64,
    /// Numbers with `0x` among other words. Base64 may have `0x` too.
    Prefixed,
}

/// The notation of a text, or None if none fits.
pub(crate) fn notation_of(text: &[u8]) -> Option<Notation>
    ensures { result ≡ notation_of text.now }
{
    if is_dump(text) {
        return Some(Notation::Dump);
    }
    if is_escaped(text) {
        return Some(Notation::Escapes);
    }
    if are_numbers(in_braces(text)) {
        return Some(Notation::Decimal);
    }
    if are_digits(in_braces(text)) {
        return Some(Notation::Digits);
    }
    if is_base64_text(text) {
        return Some(Notation::Base64);
    }
    if has_numbers(text) {
        return Some(Notation::Prefixed);
    }
    None
}

fn are_digits(octets: &[u8]) -> bool
    ensures { result ≡ are_digits octets.now }
{
    has_digit(octets) && are_hex(octets)
}

fn has_digit(octets: &[u8]) -> bool
    ensures { result ≡ list_any is_ascii_hexdigit octets.now }
{
    octets.iter().any(|octet| octet.is_ascii_hexdigit())
}

fn are_hex(octets: &[u8]) -> bool
    ensures { result ≡ list_all is_hex octets.now }
{
    octets.iter().all(|octet| is_hex(*octet))
}

fn is_hex(octet: u8) -> bool
    ensures { result ≡ is_hex octet }
{
    octet.is_ascii_hexdigit() || is_separator(octet) || is_mark(b"xX", octet)
}

/// The part of a text in braces, as of an array in C, or all of it if there are none.
pub(crate) fn in_braces(text: &[u8]) -> &[u8]
    ensures { result.now ≡ in_braces text.now }
{
    let open = offset_of(text, b'{');
    if open == text.len() {
        return text;
    }
    let inner = after(text, open);
    &inner[..offset_of(inner, b'}')]
}
