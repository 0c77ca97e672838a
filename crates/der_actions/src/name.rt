//! The name of a file, as printed.
ghost use Rattle.std.specs.Prelude.{◌≡◌, Some};
ghost use Rattle.std.specs.Fmt.{DisplaysOnOk};
ghost use Rattle.der_actions.specs.Labels.{character_text};
ghost use Rattle.der_print.specs.Quotes.{code_text, is_hidden};

use std::fmt;

/// The name of a file. A control character, an invisible one, or one that changes the direction of text is printed as
/// an escape such as `\u{202e}`.
#[derive(Clone, Copy)]
pub struct Name<'a>(pub &'a str);

impl fmt::Display for Name<'_> {
    ghost use Rattle.std.specs.Prelude.{Some};
    ghost use Rattle.der_actions.specs.Labels.{name_text};

    ghost output = { λ x. Some (name_text x.0.now) };

    fn fmt<W: fmt::Write>(&self, f: &mut fmt::Formatter<W>) -> fmt::Result {
        let name = self.0;
        for character in name.chars() {
            write_character(f, character)?;
        }
        Ok(())
    }
}

/// Writes a character of a name.
fn write_character<W: fmt::Write>(f: &mut fmt::Formatter<W>, character: char) -> fmt::Result
    ensures { DisplaysOnOk W.Write.write_str_gives f.old result (Some (character_text character)) f.new }
{
    let code = u32::from(character);
    if !is_hidden(code) {
        return f.write_char(character);
    }
    write_code(f, code)
}

/// Writes a character as an escape.
fn write_code<W: fmt::Write>(f: &mut fmt::Formatter<W>, code: u32) -> fmt::Result
    ensures { DisplaysOnOk W.Write.write_str_gives f.old result (Some (code_text code)) f.new }
{
    write!(f, "\\u{{{code:x}}}")
}

/// Whether this is the code of a control character, of an invisible one, or of one that changes the direction of text.
fn is_hidden(code: u32) -> bool
    ensures { result ≡ is_hidden code }
{
    matches!(code,
        0..=0x1f | 0x7f..=0x9f | 0xad | 0x34f | 0x61c | 0x115f..=0x1160 | 0x17b4..=0x17b5 | 0x180b..=0x180f
        | 0x200b..=0x200f | 0x2028..=0x202e | 0x2060..=0x206f | 0x3164 | 0xfe00..=0xfe0f | 0xfeff | 0xffa0
        | 0xfff0..=0xfffb | 0x1bca0..=0x1bca3 | 0x1d173..=0x1d17a | 0xe0000..=0xe0fff)
}
