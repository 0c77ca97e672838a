//! Lines of a label and a value, which may be optional.
ghost use Rattle.std.specs.Option.{option_map};
ghost use Rattle.std.specs.Prelude.{IfOk, Some};
ghost use Rattle.std.specs.Fmt.{DisplaysOnOk};
ghost use Rattle.der_cursor.specs.Elements.{element_of};
ghost use Rattle.der_print.specs.Writes.{WritesOne};
ghost use Rattle.extension_text.specs.Names.Values.{IsDisplayed, IsLineOf};
ghost use Rattle.extension_text.specs.Names.Values.{number_line, octets_line, optional_any, optional_number};
ghost use Rattle.extension_text.specs.Names.Values.{optional_octets, optional_plain, plain_line, time_line, true_line};

use crate::names::element::{AnyValue, Plain};
use arrayvec::ArrayString;
use der_base::any::Any;
use der_base::time::ASN1DateTime;
use der_print::{Hex, Limit, Moment, Number};
use std::fmt;
use std::fmt::Write;

/// The most octets of a text without a promise.
const LONGEST_DISPLAYED: usize = 256;

/// Writes a line with a text.
pub fn write_plain<W: fmt::Write>(f: &mut fmt::Formatter<W>, label: &str, text: &str) -> fmt::Result
    ensures { DisplaysOnOk W.Write.write_str_gives f.old result (Some (plain_line label.now text.now)) f.new }
{
    write!(f, "{label}{}\n", Plain { text })
}

/// Writes a line with octets.
pub fn write_octets<W: fmt::Write>(
    f: &mut fmt::Formatter<W>,
    label: &str,
    octets: &[u8],
) -> fmt::Result
    ensures { DisplaysOnOk W.Write.write_str_gives f.old result (Some (octets_line label.now octets.now)) f.new }
{
    let limit = Limit::Whole;
    write!(f, "{label}{}\n", Hex { octets, limit })
}

/// Writes a line with a number of any size, given its content octets.
pub fn write_number<W: fmt::Write>(
    f: &mut fmt::Formatter<W>,
    label: &str,
    octets: &[u8],
) -> fmt::Result
    ensures { DisplaysOnOk W.Write.write_str_gives f.old result (Some (number_line label.now octets.now)) f.new }
{
    let limit = Limit::Whole;
    write!(f, "{label}{}\n", Number { octets, limit })
}

/// Writes a line with a number, if there is one.
pub fn write_optional_number<W: fmt::Write>(
    f: &mut fmt::Formatter<W>,
    label: &str,
    number: Option<u32>,
) -> fmt::Result
    ensures { DisplaysOnOk W.Write.write_str_gives f.old result (Some (optional_number label.now number)) f.new }
{
    match number {
        Some(number) => write!(f, "{label}{number}\n"),
        None => Ok(()),
    }
}

/// Writes a line with octets, if there are any.
pub fn write_optional_octets<W: fmt::Write>(
    f: &mut fmt::Formatter<W>,
    label: &str,
    octets: Option<&[u8]>,
) -> fmt::Result
    ensures { DisplaysOnOk W.Write.write_str_gives f.old result
        (Some (optional_octets label.now (option_map (λ w. w.now) octets.entry))) f.new }
{
    match octets {
        Some(octets) => write_octets(f, label, octets),
        None => Ok(()),
    }
}

/// Writes a line with a text, if there is one.
pub fn write_optional_plain<W: fmt::Write>(
    f: &mut fmt::Formatter<W>,
    label: &str,
    text: Option<&str>,
) -> fmt::Result
    ensures { DisplaysOnOk W.Write.write_str_gives f.old result
        (Some (optional_plain label.now (option_map (λ w. w.now) text.entry))) f.new }
{
    match text {
        Some(text) => write_plain(f, label, text),
        None => Ok(()),
    }
}

/// Writes a line with a value of any type, if there is one.
pub fn write_optional_any<W: fmt::Write>(
    f: &mut fmt::Formatter<W>,
    label: &str,
    value: Option<Any<'_>>,
) -> fmt::Result
    ensures { DisplaysOnOk W.Write.write_str_gives f.old result
        (Some (optional_any label.now (option_map element_of value.entry))) f.new }
{
    match value {
        Some(element) => write!(f, "{label}{}\n", AnyValue { element }),
        None => Ok(()),
    }
}

/// Writes a line with a time whose year is complete.
pub fn write_moment<W: fmt::Write>(
    f: &mut fmt::Formatter<W>,
    label: &str,
    time: ASN1DateTime,
) -> fmt::Result
    ensures { DisplaysOnOk W.Write.write_str_gives f.old result (Some (time_line label.now time)) f.new }
{
    let moment = Moment {
        time,
        is_utc_time: false,
    };
    write!(f, "{label}{moment}\n")
}

/// Writes a line with `true`, or nothing if it is false.
pub fn write_true<W: fmt::Write>(f: &mut fmt::Formatter<W>, label: &str, truth: bool) -> fmt::Result
    ensures { DisplaysOnOk W.Write.write_str_gives f.old result (Some (true_line label.now truth)) f.new }
{
    if truth {
        return write!(f, "{label}true\n");
    }
    Ok(())
}

/// Writes a line with the text of a value. The text goes to a buffer first, because nothing may be promised of it.
pub fn write_displayed<W: fmt::Write, D: fmt::Display>(
    f: &mut fmt::Formatter<W>,
    label: &str,
    value: &D,
) -> fmt::Result
    ensures { WritesOne W.Write.write_str_gives f.old result (IsLineOf label.now (D.output value.now)) f.new }
{
    let text = text_of(value)?;
    write!(f, "{label}{text}\n")
}

/// The text of a value.
fn text_of<D: fmt::Display>(value: &D) -> Result<ArrayString<LONGEST_DISPLAYED>, fmt::Error>
    ensures { IfOk result (λ text. IsDisplayed (D.output value.now) text.bytes) }
{
    let mut text = ArrayString::new();
    write!(text, "{value}")?;
    Ok(text)
}
