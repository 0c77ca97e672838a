//! The characters of BMPString and UniversalString (X.690 8.23), in UTF-8.
ghost use Rattle.std.specs.Prelude.{◌≡◌, ◌<◌, ◌∷◌, [], length, is_some, IsTrue, MatchOption, Some};
ghost use Rattle.std.specs.Char.Utf16.{utf16_chars, is_high_surrogate, is_low_surrogate, lone_unit_char};
ghost use Rattle.std.specs.Char.Utf16.{surrogate_pair_char};
ghost use Rattle.der_base.specs.Pretty.{character, characters_text, utf32_chars};
ghost use Rattle.der_base.specs.Text.{units};
ghost use Rattle.der_object.specs.Characters.{chars_of, text_of_chars};
ghost use Rattle.der_object.specs.Writing.{Wrote};

use crate::writer::{FaultWriter, send};
use der_base::error::GenError;
use std::io::Write;

/// How octets encode characters.
#[derive(Clone, Copy)]
pub enum Coding {
    /// UTF-16: units of two octets, the high one first.
    Utf16,
    /// UTF-32: four octets, the highest first.
    Utf32,
}

/// Whether the octets are characters. Octets that are left over at the end aren't checked.
pub fn are_characters(coding: Coding, octets: &[u8]) -> bool
    ensures { result ≡ is_some (characters_text (chars_of coding octets.now)) }
{
    let mut rest = octets;
    while let Some((character, behind)) = split_character(coding, rest) {
        if character.is_none() {
            return false;
        }
        rest = behind;
    }
    true
}

/// Sends the characters that these octets encode.
pub fn send_characters<W: Write>(
    w: &mut FaultWriter<W>,
    coding: Coding,
    octets: &[u8],
) -> Result<(), GenError>
    ensures { Wrote W.contents w.old w.new result (text_of_chars (chars_of coding octets.now)) }
{
    let mut rest = octets;
    while let Some((character, behind)) = split_character(coding, rest) {
        send_character(w, character)?;
        rest = behind;
    }
    Ok(())
}

/// Sends a character, if there is one.
fn send_character<W: Write>(w: &mut FaultWriter<W>, character: Option<char>) -> Result<(), GenError>
    ensures { Wrote W.contents w.old w.new result (text_of_chars (character ∷ [])) }
{
    let Some(character) = character else {
        return Ok(());
    };
    let mut room = [0; 4];
    send(w, character.encode_utf8(&mut room).as_bytes())
}

/// The first character and the octets after it. The character is None if the first octets aren't one.
fn split_character(coding: Coding, octets: &[u8]) -> Option<(Option<char>, &[u8])>
    ensures { MatchOption result (chars_of coding octets.now ≡ [])
        (λ x. (chars_of coding octets.now ≡ x.0 ∷ chars_of coding x.1.now) × (length x.1.now < length octets.now)) }
{
    match coding {
        Coding::Utf16 => split_utf16(octets),
        Coding::Utf32 => split_utf32(octets),
    }
}

/// The first character of UTF-16: that of a surrogate pair, or of a single unit.
fn split_utf16(octets: &[u8]) -> Option<(Option<char>, &[u8])>
    ensures { MatchOption result (utf16_chars (units octets.now) ≡ [])
        (λ x. (utf16_chars (units octets.now) ≡ x.0 ∷ utf16_chars (units x.1.now))
        × (length x.1.now < length octets.now)) }
{
    let Some((unit, rest)) = split_unit(octets) else {
        return None;
    };
    let Some((character, behind)) = split_low(unit, rest) else {
        return Some((lone_character(unit), rest));
    };
    Some((character, behind))
}

/// The character of a surrogate pair with this first unit, and the octets after it. None if the unit stands alone.
fn split_low(high: u16, octets: &[u8]) -> Option<(Option<char>, &[u8])>
    ensures { MatchOption result
        (utf16_chars (high ∷ units octets.now) ≡ lone_unit_char high ∷ utf16_chars (units octets.now))
        (λ x. (utf16_chars (high ∷ units octets.now) ≡ x.0 ∷ utf16_chars (units x.1.now))
        × (length x.1.now < length octets.now)) }
{
    if !is_high(high) {
        return None;
    }
    let Some((low, behind)) = split_unit(octets) else {
        return None;
    };
    if !is_low(low) {
        return None;
    }
    Some((pair_character(high, low), behind))
}

/// The first unit of UTF-16, the high octet first.
fn split_unit(octets: &[u8]) -> Option<(u16, &[u8])>
    ensures { MatchOption result (units octets.now ≡ [])
        (λ x. (units octets.now ≡ x.0 ∷ units x.1.now) × (length x.1.now < length octets.now)) }
{
    let [high, low, rest @ ..] = octets else {
        return None;
    };
    Some((u16::from(*high) * 256 + u16::from(*low), rest))
}

/// The first character of UTF-32.
fn split_utf32(octets: &[u8]) -> Option<(Option<char>, &[u8])>
    ensures { MatchOption result (utf32_chars octets.now ≡ [])
        (λ x. (utf32_chars octets.now ≡ x.0 ∷ utf32_chars x.1.now) × (length x.1.now < length octets.now)) }
{
    let [a, b, c, d, rest @ ..] = octets else {
        return None;
    };
    let number = ((u32::from(*a) * 256 + u32::from(*b)) * 256 + u32::from(*c)) * 256
        + u32::from(*d);
    Some((character(number), rest))
}

/// The character of a surrogate pair.
fn pair_character(high: u16, low: u16) -> Option<char>
    requires high { IsTrue (is_high_surrogate high) }
    requires low { IsTrue (is_low_surrogate low) }
    ensures { result ≡ Some (surrogate_pair_char high low) }
{
    character(0x1_0000 + (u32::from(high) - 0xd800) * 0x400 + (u32::from(low) - 0xdc00))
}

/// The character of a single unit. None if it is a surrogate.
fn lone_character(unit: u16) -> Option<char>
    ensures { result ≡ lone_unit_char unit }
{
    char::from_u32(u32::from(unit))
}

/// The character with this number, if there is one.
fn character(number: u32) -> Option<char>
    ensures { result ≡ character number }
{
    char::from_u32(number)
}

/// Whether a unit is the first of a surrogate pair.
fn is_high(unit: u16) -> bool
    ensures { result ≡ is_high_surrogate unit }
{
    matches!(unit, 0xd800..=0xdbff)
}

/// Whether a unit is the second of a surrogate pair.
fn is_low(unit: u16) -> bool
    ensures { result ≡ is_low_surrogate unit }
{
    matches!(unit, 0xdc00..=0xdfff)
}
