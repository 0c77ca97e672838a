//! Object identifiers (X.690 8.19 and 8.20).
ghost use Rattle.std.specs.Prelude.{◌≡◌, ◌++◌, Some, codes, decimal};
ghost use Rattle.std.specs.Fmt.{DisplaysOnOk};
ghost use Rattle.der_base.specs.Pretty.{pointed};
ghost use Rattle.der_values.specs.Identifiers.{u128_arcs_left};

use crate::number::write_decimal;
use crate::octets::Hex;
use crate::style::Limit;
use der_values::{ObjectIdentifier, U128Arcs};
use std::fmt;

/// An identifier in dotted form. Its octets are printed if the last arc has no end, or an arc is 2^128 or more.
#[derive(Clone, Copy)]
pub struct Arcs<'a> {
    /// The content octets.
    pub octets: &'a [u8],
    /// True for a RELATIVE-OID.
    pub relative: bool,
}

impl fmt::Display for Arcs<'_> {
    ghost use Rattle.std.specs.Prelude.{Some};
    ghost use Rattle.der_print.specs.Values.{identifier_text};

    ghost output = { λ x. Some (identifier_text x.relative x.octets.now) };

    fn fmt<W: fmt::Write>(&self, f: &mut fmt::Formatter<W>) -> fmt::Result {
        let octets = self.octets;
        let Some(arcs) = identifier_of(octets, self.relative).u128_arcs() else {
            let limit = Limit::Whole;
            return write!(f, "octets {}", Hex { octets, limit });
        };
        let numbers = Numbers { arcs };
        if self.relative && !octets.is_empty() {
            return write!(f, ".{numbers}");
        }
        write!(f, "{numbers}")
    }
}

/// Arcs in dotted form. `ObjectIdentifier` prints the same, but it may allocate an `Oid`, which the page has no memory
/// for.
#[derive(Clone, Copy)]
struct Numbers<'a> {
    arcs: U128Arcs<'a>,
}

impl fmt::Display for Numbers<'_> {
    ghost use Rattle.std.specs.Prelude.{Some};
    ghost use Rattle.der_base.specs.Pretty.{dotted};
    ghost use Rattle.der_values.specs.Identifiers.{u128_arcs_left};

    ghost output = { λ x. Some (dotted (u128_arcs_left x.arcs)) };

    fn fmt<W: fmt::Write>(&self, f: &mut fmt::Formatter<W>) -> fmt::Result {
        let mut arcs = self.arcs;
        let Some(first) = arcs.next() else {
            return Ok(());
        };
        write_decimal(f, first)?;
        write_further_arcs(f, arcs)
    }
}

/// Writes arcs, each after a dot.
fn write_further_arcs<W: fmt::Write>(f: &mut fmt::Formatter<W>, arcs: U128Arcs<'_>) -> fmt::Result
    ensures { DisplaysOnOk W.Write.write_str_gives f.old result (Some (pointed (u128_arcs_left arcs.entry))) f.new }
{
    for arc in arcs {
        write_arc(f, arc)?;
    }
    Ok(())
}

/// Writes an arc after a dot.
fn write_arc<W: fmt::Write>(f: &mut fmt::Formatter<W>, arc: u128) -> fmt::Result
    ensures { DisplaysOnOk W.Write.write_str_gives f.old result (Some (codes "." ++ decimal arc)) f.new }
{
    f.write_str(".")?;
    write_decimal(f, arc)
}

/// The identifier with these content octets.
fn identifier_of(octets: &[u8], relative: bool) -> ObjectIdentifier<'_>
    ensures octets { result.octets.now ≡ octets.now }
    ensures relative { result.relative ≡ relative }
{
    if relative {
        ObjectIdentifier::new_relative(octets)
    } else {
        ObjectIdentifier::new(octets)
    }
}
