//! Splits strings into characters.
ghost use Rattle.std.specs.Prelude.{◌≡◌, ◌+◌, ◌*◌, ◌&&◌, ◌∷◌, None, Some, if◌then◌else◌, map};
ghost use Rattle.std.specs.Char.Utf16.{is_high_surrogate, is_low_surrogate, surrogate_pair_char, utf16_lossy_chars};
ghost use Rattle.std.specs.Str.{chars};
ghost use Rattle.der_base.specs.Text.{units};
ghost use Rattle.der_print.specs.Pieces.{BeginsWith, pieces_left};
ghost use Rattle.der_print.specs.Quotes.{character_of, other_pieces, pieces, utf32_lossy_chars};
ghost use Rattle.der_print.specs.declared.pieces.Piece.{Piece};

use std::str;

/// The tag number of a T61String.
const T61_STRING: u32 = 20;

/// The tag number of a UniversalString.
const UNIVERSAL_STRING: u32 = 28;

/// The tag number of a BMPString.
const BMP_STRING: u32 = 30;

/// The rest of a string, by the encoding of its characters.
#[derive(Clone, Copy)]
pub enum Characters<'a> {
    Utf8(&'a str),
    /// Latin 1, as issuers use T61String.
    Latin1(&'a [u8]),
    /// Big endian.
    Utf16(&'a [u8]),
    /// Big endian.
    Utf32(&'a [u8]),
    /// Octets that aren't UTF-8.
    Octets(&'a [u8]),
}

/// A character, or an octet that isn't one.
#[derive(Clone, Copy)]
pub enum Piece {
    Character(char),
    Octet(u8),
}

/// The characters of a string with this type number: a BMPString is UTF-16, a UniversalString UTF-32, and any other UTF-8.
/// A T61String that isn't UTF-8 is Latin 1. Another string that isn't UTF-8 is octets.
pub fn characters_of(number: u32, octets: &[u8]) -> Characters<'_>
    ensures { pieces_left result ≡ pieces number octets.now }
{
    match number {
        BMP_STRING => Characters::Utf16(octets),
        UNIVERSAL_STRING => Characters::Utf32(octets),
        _ => match str::from_utf8(octets) {
            Ok(text) => Characters::Utf8(text),
            Err(_) => other_characters(number, octets),
        },
    }
}

/// The characters of a string that isn't UTF-8.
fn other_characters(number: u32, octets: &[u8]) -> Characters<'_>
    ensures { pieces_left result ≡ other_pieces number octets.now }
{
    if number == T61_STRING {
        return Characters::Latin1(octets);
    }
    Characters::Octets(octets)
}

/// The first character and the rest.
pub fn next_piece(characters: Characters<'_>) -> Option<(Piece, Characters<'_>)>
    ensures { BeginsWith result (pieces_left characters.entry) }
{
    match characters {
        Characters::Utf8(text) => next_of_text(text),
        Characters::Latin1(octets) => next_of_latin1(octets),
        Characters::Utf16(octets) => next_of_units(octets),
        Characters::Utf32(octets) => next_of_codes(octets),
        Characters::Octets(octets) => next_octet(octets),
    }
}

fn next_of_text(text: &str) -> Option<(Piece, Characters<'_>)>
    ensures { BeginsWith result (map (λ c. Piece.Character c) (chars text.now)) }
{
    let mut characters = text.chars();
    match characters.next() {
        Some(character) => Some((
            Piece::Character(character),
            Characters::Utf8(characters.as_str()),
        )),
        None => None,
    }
}

fn next_of_latin1(octets: &[u8]) -> Option<(Piece, Characters<'_>)>
    ensures { BeginsWith result (map (λ b. Piece.Character b) octets.now) }
{
    match octets {
        [octet, rest @ ..] => Some((
            Piece::Character(char::from(*octet)),
            Characters::Latin1(rest),
        )),
        [] => None,
    }
}

fn next_octet(octets: &[u8]) -> Option<(Piece, Characters<'_>)>
    ensures { BeginsWith result (map (λ b. Piece.Octet b) octets.now) }
{
    match octets {
        [octet, rest @ ..] => Some((Piece::Octet(*octet), Characters::Octets(rest))),
        [] => None,
    }
}

fn next_of_codes(octets: &[u8]) -> Option<(Piece, Characters<'_>)>
    ensures { BeginsWith result (map (λ c. Piece.Character c) (utf32_lossy_chars octets.now)) }
{
    match octets {
        [a, b, c, d, rest @ ..] => {
            let character = character_of(u32::from_be_bytes([*a, *b, *c, *d]));
            Some((Piece::Character(character), Characters::Utf32(rest)))
        }
        _ => None,
    }
}

fn next_of_units(octets: &[u8]) -> Option<(Piece, Characters<'_>)>
    ensures { BeginsWith result (map (λ c. Piece.Character c) (utf16_lossy_chars (units octets.now))) }
{
    match octets {
        [a, b, rest @ ..] => Some(next_of_unit(unit_of(*a, *b), rest)),
        _ => None,
    }
}

/// The character that begins with this unit of UTF-16, and the rest.
fn next_of_unit(unit: u16, rest: &[u8]) -> (Piece, Characters<'_>)
    ensures { map (λ c. Piece.Character c) (utf16_lossy_chars (unit ∷ units rest.now))
        ≡ result.0 ∷ pieces_left result.1 }
{
    let alone = Piece::Character(character_of(u32::from(unit)));
    match rest {
        [a, b, others @ ..] => match pair_of(unit, unit_of(*a, *b)) {
            Some(character) => (Piece::Character(character), Characters::Utf16(others)),
            None => (alone, Characters::Utf16(rest)),
        },
        _ => (alone, Characters::Utf16(rest)),
    }
}

/// The unit of UTF-16 in two octets.
fn unit_of(high: u8, low: u8) -> u16
    ensures { result ≡ high * 256 + low }
{
    u16::from(high) * 256 + u16::from(low)
}

/// The character of two units of UTF-16.
fn pair_of(high: u16, low: u16) -> Option<char>
    ensures { result ≡ (if is_high_surrogate high && is_low_surrogate low
        then Some (surrogate_pair_char high low) else None) }
{
    if high < 0xd800 || high >= 0xdc00 || low < 0xdc00 || low >= 0xe000 {
        return None;
    }
    char::from_u32(0x10000 + u32::from(high - 0xd800) * 0x400 + u32::from(low - 0xdc00))
}

/// The character with this code, or U+FFFD.
fn character_of(code: u32) -> char
    ensures { result ≡ character_of code }
{
    char::from_u32(code).unwrap_or(char::REPLACEMENT_CHARACTER)
}
