//! BIT STRING (X.690 8.6).
ghost use Rattle.std.specs.Prelude.{◌≡◌, Some};
ghost use Rattle.std.specs.Fmt.{DisplaysOnOk};
ghost use Rattle.der_print.specs.Values.{unused_text};

use crate::octets::Hex;
use crate::style::Limit;
use std::fmt;

/// The columns of the number of unused bits.
const UNUSED: usize = 16;

/// A BIT STRING: its octets, and the number of unused bits in the last one.
#[derive(Clone, Copy)]
pub struct Bits<'a> {
    /// The content octets.
    pub octets: &'a [u8],
    pub limit: Limit,
}

impl fmt::Display for Bits<'_> {
    ghost use Rattle.std.specs.Prelude.{Some};
    ghost use Rattle.der_print.specs.Values.{bits_text};

    ghost output = { λ x. Some (bits_text x.limit x.octets.now) };

    fn fmt<W: fmt::Write>(&self, f: &mut fmt::Formatter<W>) -> fmt::Result {
        let [unused, octets @ ..] = self.octets else {
            return Ok(());
        };
        let columns = if *unused == 0 { 0 } else { UNUSED };
        let limit = self.limit.without(columns);
        Hex { octets, limit }.fmt(f)?;
        write_unused(f, *unused)
    }
}

/// Writes the number of unused bits.
fn write_unused<W: fmt::Write>(f: &mut fmt::Formatter<W>, unused: u8) -> fmt::Result
    ensures { DisplaysOnOk W.Write.write_str_gives f.old result (Some (unused_text unused)) f.new }
{
    match unused {
        0 => Ok(()),
        1 => write!(f, " (1 bit unused)"),
        _ => write!(f, " ({unused} bits unused)"),
    }
}
