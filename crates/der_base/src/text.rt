//! The content octets of the string types (X.690 8.23) that are kept as a `&str`: octets of a character set, or UTF-8.
ghost use Rattle.std.specs.Prelude.{◌≡◌, ◌↔◌, ◌<◌, IsTrue, All, MatchOption, false};
ghost use Rattle.der_base.specs.Text.{is_ia5, is_numeric, is_printable, is_text_type, is_within, IsTextOf, IsUtf16};

use crate::header::Tag;
use std::str;

/// Reads the content octets of a string type that is kept as a text: NumericString, PrintableString, IA5String and
/// VisibleString in their character sets; ObjectDescriptor, UTF8String, T61String, VideotexString, GraphicString and
/// GeneralString as UTF-8.
///
/// None if an octet isn't in the set, if the octets aren't UTF-8, and for any other type.
pub fn read_text(tag: Tag, content: &[u8]) -> Option<&str>
    ensures { MatchOption result
        (IsTrue (is_text_type tag.0) → ¬ IsTextOf tag.0 content.now)
        (λ s. IsTrue (is_text_type tag.0) × IsTextOf tag.0 content.now × (s.now ≡ content.now)) }
{
    let is_in_set = match tag {
        Tag::NumericString => content.iter().all(|b| is_numeric(*b)),
        Tag::PrintableString => content.iter().all(|b| is_printable(*b)),
        Tag::Ia5String => is_ia5(content),
        Tag::VisibleString => content.iter().all(|b| matches!(*b, b' '..=b'~')),
        Tag::ObjectDescriptor
        | Tag::Utf8String
        | Tag::T61String
        | Tag::VideotexString
        | Tag::GraphicString
        | Tag::GeneralString => return str::from_utf8(content).ok(),
        _ => return None,
    };
    if is_in_set {
        Some(ascii_text(content))
    } else {
        None
    }
}

/// Whether `read_text` reads strings of this type.
#[inline]
pub fn is_text_type(tag: Tag) -> bool
    ensures { result ≡ is_text_type tag.0 }
{
    matches!(tag.0, 7 | 12 | 18..=22 | 25..=27)
}

/// Whether an octet is a character of a NumericString.
#[inline]
fn is_numeric(b: u8) -> bool
    ensures { result ≡ is_numeric b }
{
    matches!(b, b'0'..=b'9' | b' ')
}

/// Whether the octets are characters of an IA5String.
fn is_ia5(content: &[u8]) -> bool
    ensures { IsTrue result ↔ All (λ b. IsTrue (is_ia5 b)) content.now }
{
    content.is_ascii()
}

// Each character of a PrintableString is at its own index. Every other index has an underscore.
static PRINTABLE: [u8; 256] = *b"\
    ________________________________\
    \x20______'()_+,-./0123456789:__=_?\
    _ABCDEFGHIJKLMNOPQRSTUVWXYZ_____\
    _abcdefghijklmnopqrstuvwxyz_____\
    ________________________________\
    ________________________________\
    ________________________________\
    ________________________________";

/// Whether an octet is a character of a PrintableString.
#[inline]
fn is_printable(b: u8) -> bool
    ensures { result ≡ is_printable b }
{
    PRINTABLE[b as usize] != b'_'
}

/// The text of octets below 0x80.
#[inline]
fn ascii_text(content: &[u8]) -> &str
    requires { All (λ b. b < 128) content.now }
    ensures { result.now ≡ content.now }
{
    // Octets below 0x80 are UTF-8.
    unsafe { str::from_utf8_unchecked(content) }
}

/// Whether the octets are UTF-16, big endian: each surrogate has its partner. An odd last octet isn't looked at.
pub fn is_utf16(content: &[u8]) -> bool
    ensures { IsTrue result ↔ IsUtf16 content.now }
{
    let mut rest = content;
    let mut expects_low = false;
    while let [high, _, behind @ ..] = rest {
        if begins_low_surrogate(*high) != expects_low {
            return false;
        }
        expects_low = begins_high_surrogate(*high);
        rest = behind;
    }
    !expects_low
}

/// Whether a unit of UTF-16 with this high octet is the first of a pair of surrogates.
#[inline]
fn begins_high_surrogate(high: u8) -> bool
    ensures { result ≡ is_within 0xD8 0xDB high }
{
    matches!(high, 0xd8..=0xdb)
}

/// Whether a unit of UTF-16 with this high octet is the second of a pair of surrogates.
#[inline]
fn begins_low_surrogate(high: u8) -> bool
    ensures { result ≡ is_within 0xDC 0xDF high }
{
    matches!(high, 0xdc..=0xdf)
}
