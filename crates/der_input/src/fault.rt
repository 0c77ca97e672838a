//! Where base64 is invalid, and by what.
ghost use Rattle.std.specs.Prelude.{◌≡◌, ◌+◌, ◌==◌, count_by};
ghost use Rattle.der_input.specs.Faults.{fault_at, from_character, line_of, number_of, wrong_of};
ghost use Rattle.der_input.specs.Plain.{body_of};

use crate::characters::{BREAK, begins_break, body_of, is_character};
use base64::DecodeError;
use std::fmt;

/// What isn't base64 in a text, and the line where it is.
#[derive(Clone, Copy, Debug, PartialEq)]
pub struct Base64Fault {
    /// The line, from 1. In a PEM block it is counted from the line that begins the block.
    pub line: usize,
    /// What is on that line.
    pub wrong: Wrong,
}

/// What isn't base64.
#[derive(Clone, Copy, Debug, PartialEq)]
pub enum Wrong {
    /// This octet is no character of base64, or is a `=` where a character is missing.
    Unexpected(u8),
    /// The last characters aren't whole octets.
    PartOfOctet,
}

impl Base64Fault {
    /// The fault of a text, by the error of decoding its characters.
    pub(crate) fn of(text: &[u8], e: DecodeError) -> Base64Fault
        ensures { result ≡ fault_at text.now e }
    {
        Base64Fault {
            line: line_of(text, number_of(e)),
            wrong: wrong_of(e),
        }
    }
}

impl fmt::Display for Base64Fault {
    fn fmt<W: fmt::Write>(&self, f: &mut fmt::Formatter<W>) -> fmt::Result {
        let line = self.line;
        write!(f, "on its line {line}: ")?;
        match self.wrong {
            Wrong::Unexpected(octet) if octet.is_ascii_graphic() => {
                write!(f, "unexpected '{}'", char::from(octet))
            }
            Wrong::Unexpected(octet) => write!(f, "unexpected octet {octet:02x}"),
            Wrong::PartOfOctet => write!(f, "the last characters are no whole octet"),
        }
    }
}

/// How many characters are before the wrong one.
fn number_of(e: DecodeError) -> usize
    ensures { result ≡ number_of e }
{
    match e {
        DecodeError::InvalidByte(number, _) => number,
        DecodeError::InvalidLength(number) => number.saturating_sub(1),
        DecodeError::InvalidLastSymbol { offset, .. } => offset,
        DecodeError::InvalidPadding => 0,
    }
}

/// What is wrong, by the error of decoding.
fn wrong_of(e: DecodeError) -> Wrong
    ensures { result ≡ wrong_of e }
{
    match e {
        DecodeError::InvalidByte(_, octet) => Wrong::Unexpected(octet),
        _ => Wrong::PartOfOctet,
    }
}

/// The line of a character of base64 with this many before it. Lines are counted from 1.
fn line_of(text: &[u8], number: usize) -> usize
    ensures { result ≡ line_of text.now number }
{
    let rest = from_character(body_of(text), number);
    line_after(&text[..text.len().saturating_sub(rest.len())])
}

/// The octets from a character of base64 on that has this many before it. Empty if there is none.
fn from_character(octets: &[u8], number: usize) -> &[u8]
    ensures { result.now ≡ from_character number 0 octets.now }
{
    let mut rest = octets;
    let mut left = number;
    'octets: while !rest.is_empty() {
        if begins_break(rest) {
            rest = &rest[BREAK..];
        } else if !is_character(rest[0]) {
            rest = &rest[1..];
        } else if left == 0 {
            return rest;
        } else {
            left -= 1;
            rest = &rest[1..];
        }
    }
    rest
}

/// The number of the line after a text.
fn line_after(text: &[u8]) -> usize
    ensures { result ≡ 1 + count_by (λ c. c == 0x0a) text.now }
{
    1 + text.iter().filter(|octet| **octet == b'\n').count()
}
