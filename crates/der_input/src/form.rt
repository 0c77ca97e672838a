//! Detects how an input is written.
ghost use Rattle.std.specs.Prelude.{◌≡◌, ◌↔◌, IfErr, IfOk, IsTrue, find, length, option_copied};
ghost use Rattle.std.specs.List.{list_any};
ghost use Rattle.std.specs.Option.{option_map};
ghost use Rattle.der_input.specs.Forms.{FindsForm, FindsNoForm, IsBinary, IsOneElement, IsText, begins_after_text};
ghost use Rattle.der_input.specs.Forms.{form_name, form_of_notation, is_control, other_kind};
ghost use Rattle.der_input.specs.Marks.{begins_with};
ghost use Rattle.der_base.specs.declared.header.Length.{Length};

use crate::error::FormError;
use crate::notation::{Notation, notation_of};
use crate::pem::{END, first_begin};
use crate::search::contains;
use der_base::header::{Length, ber_read_element_header};
use std::str;

/// How an input is written.
#[derive(Clone, Copy, Debug, PartialEq)]
pub enum Form {
    /// Octets, as DER and BER are.
    Der,
    /// Blocks of PEM (RFC 7468).
    Pem,
    /// Hexadecimal digits.
    Hex,
    /// Base64.
    Base64,
}

impl Form {
    /// The name of the form in a sentence, such as `base64`.
    pub fn name(self) -> &'static str
        ensures { result.now ≡ form_name self }
    {
        match self {
            Form::Der => "octets",
            Form::Pem => "PEM",
            Form::Hex => "hexadecimal digits",
            Form::Base64 => "base64",
        }
    }
}

/// The first octets of other kinds of files.
const OTHER_KINDS: [(&[u8], &str); 9] = [
    (b"\x1f\x8b", "a gzip file"),
    (b"PK\x03\x04", "a zip file"),
    (b"%PDF-", "a PDF file"),
    (b"\x89PNG", "a PNG image"),
    (b"\xff\xd8\xff", "a JPEG image"),
    (b"\x7fELF", "an ELF program"),
    (b"\xfe\xed\xfe\xed", "a Java keystore"),
    (b"ssh-", "a public key of SSH"),
    (b"\xff\xfe", "a text file in UTF-16"),
];

/// Detects how an input is written: as octets, or as text that is PEM, hexadecimal digits or base64.
///
/// One element of a definite length that fills the input is octets, unless the input is all text; so is any input that
/// isn't text. PEM begins at the start of a line, with only text before it; a text with the end of a block is PEM too.
/// Other text has the first notation that fits: dump, string with escapes, decimal numbers, hexadecimal digits, base64,
/// numbers with `0x` among words. An input that begins as another kind of file, or is other text, is an error.
pub fn form_of(input: &[u8]) -> Result<Form, FormError>
    ensures form { IfOk result (FindsForm input.now) }
    ensures none { IfErr result (FindsNoForm input.now) }
{
    if is_binary(input) {
        return Ok(Form::Der);
    }
    if let Some(kind) = other_kind(input) {
        return Err(FormError::LooksLike(kind));
    }
    if begins_after_text(input) {
        return Ok(Form::Pem);
    }
    if !is_text(input) {
        return Ok(Form::Der);
    }
    if contains(input, END) {
        return Ok(Form::Pem);
    }
    match notation_of(input) {
        Some(notation) => Ok(form_of_notation(notation)),
        None => Err(FormError::LooksLike("a text file")),
    }
}

/// The form of a text in a notation.
fn form_of_notation(notation: Notation) -> Form
    ensures { result ≡ form_of_notation notation }
{
    match notation {
        Notation::Base64 => Form::Base64,
        _ => Form::Hex,
    }
}

/// Returns whether octets are one element, and not text.
fn is_binary(input: &[u8]) -> bool
    ensures { IsTrue result ↔ IsBinary input.now }
{
    is_one_element(input) && !is_text(input)
}

/// Returns whether octets are exactly one element of a definite length (X.690 8.1.3).
fn is_one_element(input: &[u8]) -> bool
    ensures { IsTrue result ↔ IsOneElement input.now }
{
    match ber_read_element_header(input) {
        Ok((content, header)) => is_definite(header.length(), content.len()),
        Err(_) => false,
    }
}

/// Returns whether a length is definite and this number.
fn is_definite(length: Length, number: usize) -> bool
    ensures { IsTrue result ↔ (length ≡ Length.Definite number) }
{
    match length {
        Length::Definite(size) => size == number,
        Length::Indefinite => false,
    }
}

/// The name of another kind of file.
fn other_kind(input: &[u8]) -> Option<&'static str>
    ensures { option_map (λ kind. kind.now) result ≡ other_kind input.now }
{
    let (_, kind) = row_of(&OTHER_KINDS, input)?;
    Some(kind)
}

/// The first row with octets that the input begins with.
fn row_of<'r>(
    rows: &'r [(&'static [u8], &'static str)],
    input: &[u8],
) -> Option<&'r (&'static [u8], &'static str)>
    ensures { option_copied result ≡ find (λ row. begins_with input.now row.0.now) rows.now }
{
    rows.iter().find(|(octets, _)| input.starts_with(octets))
}

/// Returns whether a PEM block begins, without control characters before it.
fn begins_after_text(input: &[u8]) -> bool
    ensures { result ≡ begins_after_text input.now }
{
    match first_begin(input) {
        Some(begin) => !has_controls(&input[..begin]),
        None => false,
    }
}

/// Returns whether octets are UTF-8 without control characters other than white space.
fn is_text(input: &[u8]) -> bool
    ensures { IsTrue result ↔ IsText input.now }
{
    if input.is_empty() {
        return false;
    }
    if has_controls(input) {
        return false;
    }
    str::from_utf8(input).is_ok()
}

/// Returns whether there is a control character other than white space.
fn has_controls(input: &[u8]) -> bool
    ensures { result ≡ list_any is_control input.now }
{
    input.iter().any(|octet| is_control(*octet))
}

fn is_control(octet: u8) -> bool
    ensures { result ≡ is_control octet }
{
    octet.is_ascii_control() && !matches!(octet, b'\t' | b'\n' | b'\r')
}
