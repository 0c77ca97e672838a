//! The text of identifiers.
ghost use Rattle.std.specs.Prelude.{◌≡◌, None, Some};
ghost use Rattle.std.specs.Fmt.{DisplaysOnOk};
ghost use Rattle.der_base.specs.Pretty.{arcs_text, dotted, hex, pointed};
ghost use Rattle.der_values.specs.ArcNumbers.{u128_arcs};
ghost use Rattle.der_values.specs.Identifiers.{u128_arcs_left};

use crate::identifier::ObjectIdentifier;
use crate::u128_arcs::U128Arcs;
use std::fmt;

/// The arcs with points between them, as in `1.2.840.113549`. If `u128_arcs` returns None, the octets in hexadecimal,
/// as in `[2a 86]`. Without octets the text is empty.
impl fmt::Display for ObjectIdentifier<'_> {
    ghost output = { λ x. Some (arcs_text (u128_arcs x.relative x.octets.now) x.octets.now) };

    fn fmt<W: fmt::Write>(&self, f: &mut fmt::Formatter<W>) -> fmt::Result {
        match self.u128_arcs() {
            Some(arcs) => write_arcs(f, arcs),
            None => write_octets(f, *self),
        }
    }
}

/// Writes arcs with points between them.
fn write_arcs<W: fmt::Write>(f: &mut fmt::Formatter<W>, mut arcs: U128Arcs<'_>) -> fmt::Result
    ensures { DisplaysOnOk W.Write.write_str_gives f.old result (Some (dotted (u128_arcs_left arcs.entry))) f.new }
{
    let Some(first) = arcs.next() else {
        return Ok(());
    };
    write!(f, "{first}")?;
    write_further_arcs(f, arcs)
}

/// Writes arcs, each after a point.
fn write_further_arcs<W: fmt::Write>(f: &mut fmt::Formatter<W>, arcs: U128Arcs<'_>) -> fmt::Result
    ensures { DisplaysOnOk W.Write.write_str_gives f.old result (Some (pointed (u128_arcs_left arcs.entry))) f.new }
{
    for arc in arcs {
        write!(f, ".{arc}")?;
    }
    Ok(())
}

/// Writes the octets in hexadecimal if the arcs don't fit, as `Oid` does.
fn write_octets<W: fmt::Write>(
    f: &mut fmt::Formatter<W>,
    identifier: ObjectIdentifier<'_>,
) -> fmt::Result
    requires { u128_arcs identifier.relative identifier.octets.now ≡ None }
    ensures { DisplaysOnOk W.Write.write_str_gives f.old result (Some (hex identifier.entry.octets.now)) f.new }
{
    let oid = identifier.to_oid();
    write!(f, "{oid}")
}
