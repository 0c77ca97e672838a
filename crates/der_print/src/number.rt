//! INTEGER and ENUMERATED (X.690 8.3 and 8.4).
ghost use Rattle.std.specs.Prelude.{◌≡◌, Some};
ghost use Rattle.std.specs.Fmt.{DisplaysOnOk};
ghost use Rattle.der_print.specs.Values.{without_leading_zero};

use crate::octets::Hex;
use crate::style::Limit;
use der_base::integer::{is_negative, read_i64, read_u64};
use itoa::{Buffer, Integer};
use std::fmt;

/// The columns of `0x`.
const PREFIX: usize = 2;

/// The columns of the text after the digits of a negative number.
const NEGATIVE: usize = 32;

/// A number in two's complement: decimal from -2^63 to 2^64-1, else hexadecimal.
#[derive(Clone, Copy)]
pub struct Number<'a> {
    /// The content octets.
    pub octets: &'a [u8],
    pub limit: Limit,
}

impl fmt::Display for Number<'_> {
    ghost use Rattle.std.specs.Prelude.{Some};
    ghost use Rattle.der_print.specs.Values.{number_text};

    ghost output = { λ x. Some (number_text x.limit x.octets.now) };

    fn fmt<W: fmt::Write>(&self, f: &mut fmt::Formatter<W>) -> fmt::Result {
        let octets = self.octets;
        if let Ok(number) = read_i64(octets) {
            return write_decimal(f, number);
        }
        if let Ok(number) = read_u64(octets) {
            return write_decimal(f, number);
        }
        if is_negative(octets) {
            let limit = self.limit.without(PREFIX + NEGATIVE);
            let hex = Hex { octets, limit };
            return write!(f, "0x{hex} (negative, in two's complement)");
        }
        let limit = self.limit.without(PREFIX);
        let octets = without_leading_zero(octets);
        write!(f, "0x{}", Hex { octets, limit })
    }
}

/// Writes a number in decimal.
pub(crate) fn write_decimal<W: fmt::Write, N: Integer>(
    f: &mut fmt::Formatter<W>,
    number: N,
) -> fmt::Result
    ensures { DisplaysOnOk W.Write.write_str_gives f.old result (Some (N.text number)) f.new }
{
    let mut digits = Buffer::new();
    f.write_str(digits.format(number))
}

/// The octets without a leading zero before others.
fn without_leading_zero(octets: &[u8]) -> &[u8]
    ensures { result.now ≡ without_leading_zero octets.now }
{
    match octets {
        [0, others @ ..] if !others.is_empty() => others,
        _ => octets,
    }
}
