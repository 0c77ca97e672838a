//! Numbers of any size, such as serial numbers.
ghost use Rattle.std.specs.Prelude.{◌≡◌};
ghost use Rattle.der_print.specs.Values.{without_leading_zero};

use der_print::{Hex, Limit};
use std::fmt;

/// A number in hexadecimal. A positive one has no leading sign octet. A negative one is the encoded octets with a
/// remark: -129 is `ff7f (negative, in two's complement)`.
#[derive(Clone, Copy)]
pub struct Serial<'a> {
    /// The content octets of the INTEGER.
    pub octets: &'a [u8],
}

impl fmt::Display for Serial<'_> {
    ghost use Rattle.std.specs.Prelude.{Some};
    ghost use Rattle.extension_text.specs.Names.Values.{serial_text};

    ghost output = { λ x. Some (serial_text x.octets.now) };

    fn fmt<W: fmt::Write>(&self, f: &mut fmt::Formatter<W>) -> fmt::Result {
        let limit = Limit::Whole;
        match self.octets {
            [first, ..] if *first >= 0x80 => {
                let octets = self.octets;
                write!(
                    f,
                    "{} (negative, in two's complement)",
                    Hex { octets, limit }
                )
            }
            _ => {
                let octets = without_leading_zero(self.octets);
                write!(f, "{}", Hex { octets, limit })
            }
        }
    }
}

/// The octets without a leading zero before others.
pub fn without_leading_zero(octets: &[u8]) -> &[u8]
    ensures { result.now ≡ without_leading_zero octets.now }
{
    match octets {
        [0, others @ ..] if !others.is_empty() => others,
        _ => octets,
    }
}
