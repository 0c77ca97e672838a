//! REAL (X.690 8.5).
ghost use Rattle.std.specs.Prelude.{◌≡◌, Some};
ghost use Rattle.std.specs.Fmt.{DisplaysOnOk};
ghost use Rattle.der_print.specs.Values.{is_shown_decimal, special_text};

use crate::characters::write_pair;
use crate::octets::{Hex, printed_octets};
use crate::style::Limit;
use crate::text::are_visible;
use std::{fmt, str};

/// A REAL: 0 and special values in the notation of X.680 21.6, a decimal form as it is, any other as octets.
#[derive(Clone, Copy)]
pub struct Real<'a> {
    /// The content octets.
    pub octets: &'a [u8],
    pub limit: Limit,
}

impl fmt::Display for Real<'_> {
    ghost use Rattle.std.specs.Prelude.{Some};
    ghost use Rattle.der_print.specs.Values.{real_text};

    ghost output = { λ x. Some (real_text x.limit x.octets.now) };

    fn fmt<W: fmt::Write>(&self, f: &mut fmt::Formatter<W>) -> fmt::Result {
        let octets = self.octets;
        let limit = self.limit;
        let [first, others @ ..] = octets else {
            return f.write_str("0");
        };
        if others.is_empty() {
            return write_special(f, *first);
        }
        if is_shown_decimal(*first, others, limit) {
            return write_visible(f, others);
        }
        write!(f, "{}", Hex { octets, limit })
    }
}

/// Writes a REAL of one octet (X.690 8.5.9).
fn write_special<W: fmt::Write>(f: &mut fmt::Formatter<W>, octet: u8) -> fmt::Result
    ensures { DisplaysOnOk W.Write.write_str_gives f.old result (Some (special_text octet)) f.new }
{
    match octet {
        0x40 => f.write_str("PLUS-INFINITY"),
        0x41 => f.write_str("MINUS-INFINITY"),
        0x42 => f.write_str("NOT-A-NUMBER"),
        0x43 => f.write_str("-0"),
        _ => write_pair(f, octet),
    }
}

/// Returns whether octets are a decimal form (X.690 8.5.8) that is printed as it is. `form` is their first octet.
fn is_shown_decimal(form: u8, octets: &[u8], limit: Limit) -> bool
    ensures { result ≡ is_shown_decimal limit form octets.now }
{
    let number = octets.len();
    matches!(form, 1..=3) && are_visible(octets) && number <= printed_octets(number, limit)
}

/// Writes characters of ASCII.
fn write_visible<W: fmt::Write>(f: &mut fmt::Formatter<W>, octets: &[u8]) -> fmt::Result
    ensures { DisplaysOnOk W.Write.write_str_gives f.old result (Some octets.now) f.new }
{
    match str::from_utf8(octets) {
        Ok(text) => f.write_str(text),
        Err(_) => Err(fmt::Error),
    }
}
