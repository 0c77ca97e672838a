//! The text of object identifiers.
ghost use Rattle.std.specs.Prelude.{Some};
ghost use Rattle.std.specs.Fmt.{DisplaysOnOk};
ghost use Rattle.der_base.specs.Arcs.{arcs};
ghost use Rattle.der_base.specs.Oids.{arcs_left, is_relative_of, octets_of};
ghost use Rattle.der_base.specs.Pretty.{arcs_text, dotted, hex, hex_pair, pointed, spaced_hex};

use crate::oid::{Oid, OidIter};
use std::fmt;

/// The arcs with points between them, as in `1.2.840.113549`. If `iter` returns None, the octets in hexadecimal, as in
/// `[2a 86]`. Without octets the text is empty.
impl fmt::Display for Oid<'_> {
    ghost output = { λ o. Some (arcs_text (arcs (is_relative_of o) (octets_of o)) (octets_of o)) };

    fn fmt<W: fmt::Write>(&self, f: &mut fmt::Formatter<W>) -> fmt::Result {
        match self.iter() {
            Some(arcs) => write_arcs(f, arcs),
            None => write_hex(f, self.as_bytes()),
        }
    }
}

/// Writes arcs with points between them.
fn write_arcs<W: fmt::Write>(f: &mut fmt::Formatter<W>, mut arcs: OidIter<'_>) -> fmt::Result
    ensures { DisplaysOnOk W.Write.write_str_gives f.old result (Some (dotted (arcs_left arcs.entry))) f.new }
{
    let Some(first) = arcs.next() else {
        return Ok(());
    };
    write!(f, "{first}")?;
    write_further_arcs(f, arcs)
}

/// Writes arcs, each after a point.
fn write_further_arcs<W: fmt::Write>(f: &mut fmt::Formatter<W>, arcs: OidIter<'_>) -> fmt::Result
    ensures { DisplaysOnOk W.Write.write_str_gives f.old result (Some (pointed (arcs_left arcs.entry))) f.new }
{
    for arc in arcs {
        write!(f, ".{arc}")?;
    }
    Ok(())
}

/// Writes octets in hexadecimal.
fn write_hex<W: fmt::Write>(f: &mut fmt::Formatter<W>, octets: &[u8]) -> fmt::Result
    ensures { DisplaysOnOk W.Write.write_str_gives f.old result (Some (hex octets.now)) f.new }
{
    let [first, others @ ..] = octets else {
        return write!(f, "[]");
    };
    write!(f, "[")?;
    write_octet(f, *first)?;
    write_further_octets(f, others)?;
    write!(f, "]")
}

/// Writes octets in hexadecimal, each after a space.
fn write_further_octets<W: fmt::Write>(f: &mut fmt::Formatter<W>, octets: &[u8]) -> fmt::Result
    ensures { DisplaysOnOk W.Write.write_str_gives f.old result (Some (spaced_hex octets.now)) f.new }
{
    for octet in octets {
        write!(f, " ")?;
        write_octet(f, *octet)?;
    }
    Ok(())
}

/// Writes an octet as two hexadecimal digits.
fn write_octet<W: fmt::Write>(f: &mut fmt::Formatter<W>, octet: u8) -> fmt::Result
    ensures { DisplaysOnOk W.Write.write_str_gives f.old result (Some (hex_pair octet)) f.new }
{
    write!(f, "{octet:02x}")
}
