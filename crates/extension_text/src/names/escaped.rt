//! Attribute values in the form of RFC 4514 2.4.
ghost use Rattle.std.specs.Prelude.{◌≡◌, ◌==◌, ◌||◌, Some, flat_map, length, true};
ghost use Rattle.std.specs.Fmt.{DisplaysOnOk};
ghost use Rattle.der_base.specs.Pretty.{hex_pair};
ghost use Rattle.der_print.specs.Pieces.{pieces_left};
ghost use Rattle.der_print.specs.Quotes.{pieces};
ghost use Rattle.extension_text.specs.Names.Escapes.{IsPlain, character_text, escaped, is_plain, is_special};
ghost use Rattle.extension_text.specs.Names.Escapes.{needs_backslash, octet_text, pair_text, piece_text};

use der_print::{Characters, Piece, characters_of, is_hidden, next_piece};
use std::fmt;

/// Writes the characters of a string with this type number, in UTF-8. Special characters get a backslash. A character
/// that can't be seen or changes the direction of the text is written as its UTF-8 octets in hexadecimal, and so is an
/// octet that belongs to no character.
pub(crate) fn write_escaped<W: fmt::Write>(
    f: &mut fmt::Formatter<W>,
    number: u32,
    octets: &[u8],
) -> fmt::Result
    ensures { DisplaysOnOk W.Write.write_str_gives f.old result (Some (escaped true (pieces number octets.now))) f.new }
{
    match characters_of(number, octets) {
        Characters::Utf8(text) if are_plain(text.as_bytes()) => f.write_str(text),
        characters => write_characters(f, characters),
    }
}

/// Returns whether octets are ASCII that needs no escape, as most values are.
fn are_plain(octets: &[u8]) -> bool
    ensures { result ≡ true → IsPlain true octets.now }
{
    let mut left = octets;
    let mut first = true;
    while let [octet, rest @ ..] = left {
        if !is_plain(*octet, rest, first) {
            return false;
        }
        left = rest;
        first = false;
    }
    true
}

/// Returns whether an octet before others is an ASCII character that needs no escape.
fn is_plain(octet: u8, rest: &[u8], first: bool) -> bool
    ensures { result ≡ is_plain octet (first || length rest.now == 0) first }
{
    let outermost = first || rest.is_empty();
    octet >= b' ' && octet <= b'~' && !needs_backslash(char::from(octet), outermost, first)
}

/// Writes characters one by one.
fn write_characters<W: fmt::Write>(
    f: &mut fmt::Formatter<W>,
    characters: Characters<'_>,
) -> fmt::Result
    ensures { let text = escaped true (pieces_left characters.entry) in
        DisplaysOnOk W.Write.write_str_gives f.old result (Some text) f.new }
{
    let mut left = characters;
    let mut first = true;
    while let Some((piece, rest)) = next_piece(left) {
        write_piece(f, piece, is_outermost(first, rest), first)?;
        left = rest;
        first = false;
    }
    Ok(())
}

/// Returns whether a character is the first or the last of a string.
fn is_outermost(first: bool, rest: Characters<'_>) -> bool
    ensures { result ≡ (first || length (pieces_left rest.entry) == 0) }
{
    first || next_piece(rest).is_none()
}

/// Writes a character, or an octet that isn't one. `outermost` says that it is the first or the last of a string, and
/// `first` that it is the first.
fn write_piece<W: fmt::Write>(
    f: &mut fmt::Formatter<W>,
    piece: Piece,
    outermost: bool,
    first: bool,
) -> fmt::Result
    ensures { DisplaysOnOk W.Write.write_str_gives f.old result (Some (piece_text piece outermost first)) f.new }
{
    match piece {
        Piece::Character(character) => write_character(f, character, outermost, first),
        Piece::Octet(octet) => write_octet(f, octet, outermost, first),
    }
}

/// Writes an octet of a string that isn't UTF-8.
fn write_octet<W: fmt::Write>(
    f: &mut fmt::Formatter<W>,
    octet: u8,
    outermost: bool,
    first: bool,
) -> fmt::Result
    ensures { DisplaysOnOk W.Write.write_str_gives f.old result (Some (octet_text octet outermost first)) f.new }
{
    if octet.is_ascii() {
        return write_character(f, char::from(octet), outermost, first);
    }
    write_pair(f, octet)
}

fn write_character<W: fmt::Write>(
    f: &mut fmt::Formatter<W>,
    character: char,
    outermost: bool,
    first: bool,
) -> fmt::Result
    ensures { let text = character_text character outermost first in
        DisplaysOnOk W.Write.write_str_gives f.old result (Some text) f.new }
{
    if needs_backslash(character, outermost, first) {
        return write!(f, "\\{character}");
    }
    if is_hidden(character) {
        let mut room = [0; 4];
        return write_pairs(f, character.encode_utf8(&mut room).as_bytes());
    }
    f.write_char(character)
}

/// Returns whether a character needs a backslash here.
fn needs_backslash(character: char, outermost: bool, first: bool) -> bool
    ensures { result ≡ needs_backslash character outermost first }
{
    is_special(character) || (character == ' ' && outermost) || (character == '#' && first)
}

/// Returns whether a character needs a backslash anywhere.
fn is_special(character: char) -> bool
    ensures { result ≡ is_special character }
{
    matches!(character, '"' | '+' | ',' | ';' | '<' | '>' | '\\')
}

/// Writes octets, each after a backslash.
fn write_pairs<W: fmt::Write>(f: &mut fmt::Formatter<W>, octets: &[u8]) -> fmt::Result
    ensures { DisplaysOnOk W.Write.write_str_gives f.old result (Some (flat_map pair_text octets.now)) f.new }
{
    let mut left = octets;
    while let [octet, rest @ ..] = left {
        write_pair(f, *octet)?;
        left = rest;
    }
    Ok(())
}

/// Writes a backslash and an octet in two hexadecimal digits.
fn write_pair<W: fmt::Write>(f: &mut fmt::Formatter<W>, octet: u8) -> fmt::Result
    ensures { DisplaysOnOk W.Write.write_str_gives f.old result (Some (pair_text octet)) f.new }
{
    f.write_str("\\")?;
    write_hex(f, octet)
}

/// Writes an octet in two hexadecimal digits.
fn write_hex<W: fmt::Write>(f: &mut fmt::Formatter<W>, octet: u8) -> fmt::Result
    ensures { DisplaysOnOk W.Write.write_str_gives f.old result (Some (hex_pair octet)) f.new }
{
    write!(f, "{octet:02x}")
}
