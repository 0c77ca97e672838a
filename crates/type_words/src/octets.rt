//! Octets and their number.
ghost use Rattle.std.specs.Prelude.{◌≡◌, Some};
ghost use Rattle.std.specs.List.{list_all};
ghost use Rattle.std.specs.Str.{is_utf8};
ghost use Rattle.der_print.specs.declared.style.Limit.{Limit};
ghost use Rattle.type_words.specs.Texts.{is_no_control, is_shown};

use der_base::header::Tag;
use der_print::{Hex, Limit, Quoted, is_printable_ascii};
use std::{fmt, str};

/// A text in quotes, as UTF-8 or as octets.
pub fn quoted(octets: &[u8]) -> Quoted<'_>
    ensures octets { result.octets.now ≡ octets.now }
    ensures number { result.number ≡ 12 }
    ensures limit { result.limit ≡ Limit.Whole }
{
    Quoted {
        octets,
        number: Tag::Utf8String.0,
        limit: Limit::Whole,
    }
}

/// Octets in hexadecimal.
pub fn digits(octets: &[u8]) -> Hex<'_>
    ensures octets { result.octets.now ≡ octets.now }
    ensures limit { result.limit ≡ Limit.Whole }
{
    Hex {
        octets,
        limit: Limit::Whole,
    }
}

/// The octets of an OCTET STRING: in quotes if they are printable ASCII, else in hexadecimal.
#[derive(Clone, Copy)]
pub struct Octets<'a>(pub &'a [u8]);

impl fmt::Display for Octets<'_> {
    ghost use Rattle.std.specs.Prelude.{Some};
    ghost use Rattle.type_words.specs.Texts.{octets_text};

    ghost output = { λ x. Some (octets_text x.0.now) };

    fn fmt<W: fmt::Write>(&self, f: &mut fmt::Formatter<W>) -> fmt::Result {
        let octets = self.0;
        if octets.is_empty() {
            return write!(f, "\"\"");
        }
        if is_printable_ascii(octets) {
            let text = quoted(octets);
            return write!(f, "{text}");
        }
        let hex = digits(octets);
        write!(f, "{hex}")
    }
}

/// Octets: in quotes if they are UTF-8 without control characters, else in hexadecimal.
#[derive(Clone, Copy)]
pub struct Shown<'a>(pub &'a [u8]);

impl fmt::Display for Shown<'_> {
    ghost use Rattle.std.specs.Prelude.{Some};
    ghost use Rattle.type_words.specs.Texts.{shown_text};

    ghost output = { λ x. Some (shown_text x.0.now) };

    fn fmt<W: fmt::Write>(&self, f: &mut fmt::Formatter<W>) -> fmt::Result {
        let octets = self.0;
        if is_shown(octets) {
            let text = quoted(octets);
            return write!(f, "{text}");
        }
        let hex = digits(octets);
        write!(f, "{hex}")
    }
}

/// Returns whether octets are UTF-8 without control characters.
pub fn is_shown(octets: &[u8]) -> bool
    ensures { result ≡ is_shown octets.now }
{
    has_no_control(octets) && is_utf8(octets)
}

/// Returns whether octets are UTF-8.
fn is_utf8(octets: &[u8]) -> bool
    ensures { result ≡ is_utf8 octets.now }
{
    match str::from_utf8(octets) {
        Ok(_) => true,
        Err(_) => false,
    }
}

/// Returns whether no octet is a control character of ASCII.
fn has_no_control(octets: &[u8]) -> bool
    ensures { result ≡ list_all is_no_control octets.now }
{
    octets.iter().all(|octet| *octet >= b' ' && *octet != 0x7f)
}

/// A number of octets, such as `1 octet`.
#[derive(Clone, Copy)]
pub struct Count(pub usize);

impl fmt::Display for Count {
    ghost use Rattle.std.specs.Prelude.{Some};
    ghost use Rattle.type_words.specs.Texts.{count_text};

    ghost output = { λ x. Some (count_text x.0) };

    fn fmt<W: fmt::Write>(&self, f: &mut fmt::Formatter<W>) -> fmt::Result {
        let number = self.0;
        if number == 1 {
            return write!(f, "1 octet");
        }
        write!(f, "{number} octets")
    }
}
