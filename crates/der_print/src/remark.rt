//! Remarks on values that break their type.
ghost use Rattle.std.specs.Prelude.{◌≡◌, Some, find, not, true};
ghost use Rattle.std.specs.Fmt.{DisplaysOnOk};
ghost use Rattle.der_base.specs.Text.{is_printable};
ghost use Rattle.std.specs.Option.{option_map};
ghost use Rattle.der_print.specs.Remarks.{IsRemark, fault_text, is_of_type, remark_text};
ghost use Rattle.der_print.specs.Texts.{content_of};
ghost use Rattle.der_elements.specs.Walked.{visited_of};

use crate::characters::write_octet;
use crate::value::octets_or_none;
use der_base::rules::Rules;
use der_contents::{ContentError, check_content};
use der_elements::{Element, fault_inside};
use std::fmt;

/// A remark on an element, besides its value.
#[derive(Clone, Copy)]
pub enum Remark<'a> {
    /// The value breaks its type.
    Rule(BrokenRule<'a>),
    /// The content of a string has the header of a SEQUENCE or SET and isn't one. The offset of the error in the input.
    Inside(usize),
}

/// The rule that a value breaks, and the first octet of a text outside its character set.
#[derive(Clone, Copy)]
pub struct BrokenRule<'a> {
    error: ContentError,
    /// The number of the type.
    number: u32,
    /// The content octets.
    octets: &'a [u8],
}

impl<'a> Remark<'a> {
    /// The remark on an element: the first rule of BER that its content breaks, or the error inside a string whose
    /// elements aren't visited.
    #[inline(always)]
    pub fn on(element: &Element<'a>) -> Option<Remark<'a>>
        ensures { IsRemark (visited_of element.now) (content_of element.now) (option_map remark_text result) }
    {
        if element.breaks_its_type {
            return on_content(element);
        }
        if element.holds.is_some() {
            return None;
        }
        match fault_inside(element) {
            Some(offset) => Some(Remark::Inside(offset)),
            None => None,
        }
    }
}

/// The first rule of BER that an element's content breaks.
fn on_content<'a>(element: &Element<'a>) -> Option<Remark<'a>>
    requires { element.now.breaks_its_type ≡ true }
    ensures { IsRemark (visited_of element.now) (content_of element.now) (option_map remark_text result) }
{
    let number = element.number;
    let octets = octets_or_none(element.content);
    match check_content(Rules::Ber, number, octets) {
        Ok(()) => None,
        Err(error) => Some(Remark::Rule(BrokenRule {
            error,
            number,
            octets,
        })),
    }
}

impl fmt::Display for Remark<'_> {
    ghost use Rattle.std.specs.Prelude.{Some};
    ghost use Rattle.der_print.specs.Remarks.{remark_text};

    ghost output = { λ x. Some (remark_text x) };

    fn fmt<W: fmt::Write>(&self, f: &mut fmt::Formatter<W>) -> fmt::Result {
        match self {
            Remark::Rule(rule) => write!(f, "{rule}"),
            Remark::Inside(offset) => write!(f, "holding BER broken at {offset}"),
        }
    }
}

impl fmt::Display for BrokenRule<'_> {
    ghost use Rattle.std.specs.Prelude.{Some};
    ghost use Rattle.der_print.specs.Remarks.{rule_of};

    ghost output = { λ x. Some (rule_of x) };

    fn fmt<W: fmt::Write>(&self, f: &mut fmt::Formatter<W>) -> fmt::Result {
        f.write_str(self.error.found())?;
        write_fault(f, fault_in(self.number, self.octets))?;
        let clause = self.error.clause();
        write!(f, " (X.690 {clause})")
    }
}

/// Writes the octet that the type doesn't allow.
fn write_fault<W: fmt::Write>(f: &mut fmt::Formatter<W>, fault: Option<u8>) -> fmt::Result
    ensures { DisplaysOnOk W.Write.write_str_gives f.old result (Some (fault_text fault)) f.new }
{
    match fault {
        Some(octet) => {
            f.write_str(": ")?;
            write_octet(f, octet)
        }
        None => Ok(()),
    }
}

/// The first octet that the type doesn't allow.
fn fault_in(number: u32, octets: &[u8]) -> Option<u8>
    ensures { result ≡ find (λ b. not (is_of_type number b)) octets.now }
{
    octets
        .iter()
        .copied()
        .find(|octet| !is_of_type(number, *octet))
}

/// Returns whether a string of this type may have the octet.
fn is_of_type(number: u32, octet: u8) -> bool
    ensures { result ≡ is_of_type number octet }
{
    match number {
        18 => matches!(octet, b'0'..=b'9' | b' '),
        19 => is_printable(octet),
        22 => octet.is_ascii(),
        26 => matches!(octet, b' '..=b'~'),
        _ => true,
    }
}

/// Returns whether a PrintableString may have the octet (X.680 41.4).
fn is_printable(octet: u8) -> bool
    ensures { result ≡ is_printable octet }
{
    matches!(octet,
        b'A'..=b'Z' | b'a'..=b'z' | b'0'..=b'9' | b' ' | b'\'' | b'(' | b')' | b'+' | b',' | b'-' | b'.' | b'/' | b':'
        | b'=' | b'?')
}
