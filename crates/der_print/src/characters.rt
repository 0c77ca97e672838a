//! Characters that are safe in a terminal.
ghost use Rattle.std.specs.Prelude.{◌≡◌, Some};
ghost use Rattle.std.specs.Fmt.{DisplaysOnOk};
ghost use Rattle.der_base.specs.Pretty.{hex_pair};
ghost use Rattle.der_print.specs.Quotes.{character_text, code_text, is_hidden, is_plain, is_unescaped, octet_text};

use std::fmt;

/// Writes a character of a quoted text. Escapes quotes, backslashes, control characters, and characters that are
/// invisible or change the direction of a text.
pub(crate) fn write_character<W: fmt::Write>(
    f: &mut fmt::Formatter<W>,
    character: char,
) -> fmt::Result
    ensures { DisplaysOnOk W.Write.write_str_gives f.old result (Some (character_text character)) f.new }
{
    match character {
        '"' => f.write_str("\\\""),
        '\\' => f.write_str("\\\\"),
        '\n' => f.write_str("\\n"),
        '\r' => f.write_str("\\r"),
        '\t' => f.write_str("\\t"),
        _ if is_hidden(character) => write_code(f, u32::from(character)),
        _ => f.write_char(character),
    }
}

/// Writes a character as its code.
fn write_code<W: fmt::Write>(f: &mut fmt::Formatter<W>, code: u32) -> fmt::Result
    ensures { DisplaysOnOk W.Write.write_str_gives f.old result (Some (code_text code)) f.new }
{
    write!(f, "\\u{{{code:x}}}")
}

/// Writes an octet of a text that isn't UTF-8: ASCII as a character, others as hexadecimal codes.
pub(crate) fn write_octet<W: fmt::Write>(f: &mut fmt::Formatter<W>, octet: u8) -> fmt::Result
    ensures { DisplaysOnOk W.Write.write_str_gives f.old result (Some (octet_text octet)) f.new }
{
    if octet.is_ascii() {
        return write_character(f, char::from(octet));
    }
    f.write_str("\\x")?;
    write_pair(f, octet)
}

/// Writes an octet as two hexadecimal digits.
pub(crate) fn write_pair<W: fmt::Write>(f: &mut fmt::Formatter<W>, octet: u8) -> fmt::Result
    ensures { DisplaysOnOk W.Write.write_str_gives f.old result (Some (hex_pair octet)) f.new }
{
    write!(f, "{octet:02x}")
}

/// Returns whether an octet is an ASCII character that needs no escape.
pub(crate) fn is_plain(octet: u8) -> bool
    ensures { result ≡ is_plain octet }
{
    matches!(octet, b' '..=b'~') && octet != b'"' && octet != b'\\'
}

/// Returns whether a character needs no escape.
pub(crate) fn is_unescaped(character: char) -> bool
    ensures { result ≡ is_unescaped character }
{
    character != '"' && character != '\\' && !is_hidden(character)
}

/// Returns whether a character is a control character, is invisible, or changes the direction of a text.
pub fn is_hidden(character: char) -> bool
    ensures { result ≡ is_hidden character }
{
    let code = u32::from(character);
    matches!(code,
        0..=0x1f | 0x7f..=0x9f | 0xad | 0x34f | 0x61c | 0x115f..=0x1160 | 0x17b4..=0x17b5 | 0x180b..=0x180f
        | 0x200b..=0x200f | 0x2028..=0x202e | 0x2060..=0x206f | 0x3164 | 0xfe00..=0xfe0f | 0xfeff | 0xffa0
        | 0xfff0..=0xfffb | 0x1bca0..=0x1bca3 | 0x1d173..=0x1d17a | 0xe0000..=0xe0fff)
}
