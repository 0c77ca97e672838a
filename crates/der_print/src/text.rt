//! The texts of string types (X.690 8.23).
ghost use Rattle.std.specs.Prelude.{◌≡◌, Some, map};
ghost use Rattle.std.specs.Fmt.{DisplaysOnOk};
ghost use Rattle.std.specs.List.{list_all};
ghost use Rattle.std.specs.Str.{chars};
ghost use Rattle.der_base.specs.Text.{is_visible};
ghost use Rattle.der_print.specs.Pieces.{pieces_left};
ghost use Rattle.der_print.specs.Quotes.{is_plain, is_unescaped, octets_said, piece_text, plain_text};
ghost use Rattle.der_print.specs.Quotes.{printed_characters};
ghost use Rattle.der_print.specs.Values.{is_ascii_text};
ghost use Rattle.der_print.specs.Writes.{WritesFirst};
ghost use Rattle.der_print.specs.declared.pieces.Piece.{Piece};

use crate::characters::{is_plain, is_unescaped, write_character, write_octet};
use crate::pieces::{Characters, Piece, characters_of, next_piece};
use crate::style::Limit;
use std::fmt;

/// The most characters that are printed if long values are cut.
pub(crate) const MOST: usize = 120;

/// The columns of the space before a text and of its quotes.
const QUOTES: usize = 3;

/// The columns beside the characters of a cut text: `"..."`.
const POINTS: usize = 6;

/// The columns beside the characters of a cut text with its size, such as `"..." (1234 octets)`.
const ENDING: usize = 20;

/// The fewest columns for a cut text with its size.
const LEAST: usize = 30;

/// A string in quotes. If it is cut, three dots and the number of its octets follow.
#[derive(Clone, Copy)]
pub struct Quoted<'a> {
    /// The content octets.
    pub octets: &'a [u8],
    /// The tag number of the type. A BMPString has two octets for a character, and a UniversalString four.
    pub number: u32,
    pub limit: Limit,
}

impl fmt::Display for Quoted<'_> {
    ghost use Rattle.std.specs.Prelude.{Some};
    ghost use Rattle.der_print.specs.Quotes.{quoted_text};

    ghost output = { λ x. Some (quoted_text x.limit x.number x.octets.now) };

    fn fmt<W: fmt::Write>(&self, f: &mut fmt::Formatter<W>) -> fmt::Result {
        let number = self.octets.len();
        let most = printed_characters(number, self.limit);
        f.write_str("\"")?;
        if write_first(f, characters_of(self.number, self.octets), most)? {
            return f.write_str("\"");
        }
        f.write_str("...\"")?;
        write_number(f, number, self.limit, LEAST)
    }
}

/// The characters of a string, without quotes or escapes.
#[derive(Clone, Copy)]
pub struct Unquoted<'a> {
    /// The content octets.
    pub octets: &'a [u8],
    /// The tag number of the type.
    pub number: u32,
}

impl fmt::Display for Unquoted<'_> {
    ghost use Rattle.std.specs.Prelude.{Some};
    ghost use Rattle.der_print.specs.Quotes.{unquoted_text};

    ghost output = { λ x. Some (unquoted_text x.number x.octets.now) };

    fn fmt<W: fmt::Write>(&self, f: &mut fmt::Formatter<W>) -> fmt::Result {
        let mut rest = characters_of(self.number, self.octets);
        while let Some((piece, others)) = next_piece(rest) {
            write_plain(f, piece)?;
            rest = others;
        }
        Ok(())
    }
}

/// Writes a character as it is.
fn write_plain<W: fmt::Write>(f: &mut fmt::Formatter<W>, piece: Piece) -> fmt::Result
    ensures { DisplaysOnOk W.Write.write_str_gives f.old result (Some (plain_text piece)) f.new }
{
    match piece {
        Piece::Character(character) => f.write_char(character),
        Piece::Octet(octet) => write_octet(f, octet),
    }
}

/// The most characters to print of a text of `number` octets.
fn printed_characters(number: usize, limit: Limit) -> usize
    ensures { result ≡ printed_characters limit number }
{
    match limit {
        Limit::Whole => number,
        Limit::Front => MOST,
        Limit::Columns(columns) if number <= columns.saturating_sub(QUOTES) => number,
        Limit::Columns(columns) if columns < LEAST => columns.saturating_sub(POINTS),
        Limit::Columns(columns) => columns.saturating_sub(ENDING),
    }
}

/// Writes the size of a cut value, if there are at least `least` columns.
pub(crate) fn write_number<W: fmt::Write>(
    f: &mut fmt::Formatter<W>,
    number: usize,
    limit: Limit,
    least: usize,
) -> fmt::Result
    ensures { DisplaysOnOk W.Write.write_str_gives f.old result (Some (octets_said least limit number)) f.new }
{
    match limit {
        Limit::Columns(columns) if columns < least => Ok(()),
        _ => write!(f, " ({number} octets)"),
    }
}

/// Returns whether octets are at least two printable ASCII characters.
pub fn is_printable_ascii(octets: &[u8]) -> bool
    ensures { result ≡ is_ascii_text octets.now }
{
    octets.len() > 1 && are_visible(octets)
}

/// Returns whether octets are printable ASCII.
pub(crate) fn are_visible(octets: &[u8]) -> bool
    ensures { result ≡ list_all is_visible octets.now }
{
    octets.iter().all(|octet| *octet >= b' ' && *octet <= b'~')
}

/// Writes the first characters. Returns whether they are all.
fn write_first<W: fmt::Write>(
    f: &mut fmt::Formatter<W>,
    characters: Characters<'_>,
    most: usize,
) -> Result<bool, fmt::Error>
    ensures { WritesFirst W.Write.write_str_gives f.old result most
        (map piece_text (pieces_left characters.entry)) f.new }
{
    match characters {
        Characters::Utf8(text) => write_text(f, text, most),
        _ => write_pieces(f, characters, most),
    }
}

/// Writes the first characters of a text. Returns whether they are all.
pub(crate) fn write_text<W: fmt::Write>(
    f: &mut fmt::Formatter<W>,
    text: &str,
    most: usize,
) -> Result<bool, fmt::Error>
    ensures { WritesFirst W.Write.write_str_gives f.old result most
        (map piece_text (map (λ c. Piece.Character c) (chars text.now))) f.new }
{
    if text.len() <= most && is_unescaped_text(text) {
        f.write_str(text)?;
        return Ok(true);
    }
    write_characters(f, text, most)
}

/// Writes the first characters of a text one by one. Returns whether they are all.
fn write_characters<W: fmt::Write>(
    f: &mut fmt::Formatter<W>,
    text: &str,
    most: usize,
) -> Result<bool, fmt::Error>
    ensures { WritesFirst W.Write.write_str_gives f.old result most
        (map piece_text (map (λ c. Piece.Character c) (chars text.now))) f.new }
{
    let mut wanted = most;
    for character in text.chars() {
        if wanted == 0 {
            return Ok(false);
        }
        write_character(f, character)?;
        wanted -= 1;
    }
    Ok(true)
}

/// Returns whether no character of a text needs an escape. Most texts are ASCII, which is tested at once.
fn is_unescaped_text(text: &str) -> bool
    ensures { result ≡ list_all is_unescaped (chars text.now) }
{
    are_plain(text.as_bytes()) || are_unescaped(text)
}

/// Returns whether octets are ASCII without escapes. It reads all octets, many at once, which is faster.
fn are_plain(octets: &[u8]) -> bool
    ensures { result ≡ list_all is_plain octets.now }
{
    let mut plain = true;
    for octet in octets {
        plain &= is_plain(*octet);
    }
    plain
}

/// Returns whether no character needs an escape, character by character.
fn are_unescaped(text: &str) -> bool
    ensures { result ≡ list_all is_unescaped (chars text.now) }
{
    text.chars().all(|character| is_unescaped(character))
}

/// Writes the first characters one by one. Returns whether they are all.
fn write_pieces<W: fmt::Write>(
    f: &mut fmt::Formatter<W>,
    characters: Characters<'_>,
    most: usize,
) -> Result<bool, fmt::Error>
    ensures { WritesFirst W.Write.write_str_gives f.old result most
        (map piece_text (pieces_left characters.entry)) f.new }
{
    let mut rest = characters;
    let mut left = most;
    while let Some((piece, others)) = next_piece(rest) {
        if left == 0 {
            return Ok(false);
        }
        write_piece(f, piece)?;
        rest = others;
        left -= 1;
    }
    Ok(true)
}

/// Writes a character, or an octet that isn't one.
fn write_piece<W: fmt::Write>(f: &mut fmt::Formatter<W>, piece: Piece) -> fmt::Result
    ensures { DisplaysOnOk W.Write.write_str_gives f.old result (Some (piece_text piece)) f.new }
{
    match piece {
        Piece::Character(character) => write_character(f, character),
        Piece::Octet(octet) => write_octet(f, octet),
    }
}
