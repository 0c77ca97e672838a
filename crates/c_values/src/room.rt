//! A buffer of the caller's that takes texts, as far as its capacity allows.
ghost use Rattle.std.specs.List.{flat_map};
ghost use Rattle.std.specs.Prelude.{◌≡◌, ◌+◌, ◌<◌};
ghost use Rattle.c_values.specs.Rooms.{ascii, written};
ghost use Rattle.c_values.specs.Texts.{PutsText};
ghost use Rattle.der_base.specs.Pretty.{hex_digit};

use crate::text::put_text;
use std::fmt;

/// Which characters a text is written in.
#[derive(Clone, Copy)]
pub enum Script {
    /// All, in UTF-8.
    Utf8,
    /// ASCII. Each octet of another character is a backslash and two hexadecimal digits.
    Ascii,
}

/// A buffer for a text, and the length of the text, which may be more.
#[derive(Drop)]
pub struct Room<'a> {
    octets: &'a mut [u8],
    script: Script,
    pub length: usize,
}

impl<'a> Room<'a> {
    /// A buffer without a text.
    pub fn new(octets: &'a mut [u8], script: Script) -> Room<'a>
        ensures same_reference { result.octets.ghost_name ≡ octets.entry.ghost_name }
        ensures octets { result.octets.now ≡ octets.old }
        ensures script { result.script ≡ script }
        ensures length { result.length ≡ 0 }
    {
        Room {
            octets,
            script,
            length: 0,
        }
    }
}

impl fmt::Write for Room<'_> {
    ghost use Rattle.c_values.specs.Rooms.{TakesText};

    ghost write_str_gives = { TakesText };

    fn write_str(&mut self, text: &str) -> fmt::Result {
        self.length = put_written(self.octets, self.length, self.script, text.as_bytes());
        Ok(())
    }
}

/// Writes a text in these characters. Returns the offset after the whole text.
fn put_written(room: &mut [u8], at: usize, script: Script, text: &[u8]) -> usize
    ensures { PutsText room.old at (written script text.now) room.new result }
{
    match script {
        Script::Utf8 => put_text(room, at, text),
        Script::Ascii => put_ascii(room, at, text),
    }
}

/// Writes a text in ASCII.
fn put_ascii(room: &mut [u8], at: usize, text: &[u8]) -> usize
    ensures { PutsText room.old at (flat_map ascii text.now) room.new result }
{
    let mut end = at;
    for octet in text {
        end = put_octet(room, end, *octet);
    }
    end
}

/// Writes an octet of a text in ASCII.
fn put_octet(room: &mut [u8], at: usize, octet: u8) -> usize
    ensures { PutsText room.old at (ascii octet) room.new result }
{
    if octet.is_ascii() {
        return put_text(room, at, &[octet]);
    }
    put_text(room, at, &[b'\\', digit(octet / 16), digit(octet % 16)])
}

/// A hexadecimal digit.
fn digit(number: u8) -> u8
    requires { number < 16 }
    ensures { result ≡ hex_digit number }
{
    match number {
        0..=9 => b'0' + number,
        _ => b'a' + (number - 10),
    }
}
