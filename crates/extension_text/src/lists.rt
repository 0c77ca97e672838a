//! Extensions that are lists: purposes, access, name constraints (RFC 5280 4.2).
ghost use Rattle.std.specs.Option.{option_map};
ghost use Rattle.std.specs.Prelude.{Some};
ghost use Rattle.std.specs.Fmt.{DisplaysOnOk};
ghost use Rattle.der_extensions.specs.Extensions.{name_constraints_of};
ghost use Rattle.der_extensions.specs.Lists.{list_octets};
ghost use Rattle.der_print.specs.Writes.{WritesOne};
ghost use Rattle.extension_text.specs.Extensions.{AreOptionalSubtrees, IsNameConstraints, distances_text};
ghost use Rattle.extension_text.specs.Extensions.{minimum_text};

use crate::general_name::write_general_name;
use crate::items::{InWords, write_items};
use crate::names::identifier::write_identifier_line;
use crate::names::lines::write_optional_number;
use der_extensions::{AccessDescription, GeneralSubtree, NameConstraints, SequenceOf};
use der_values::ObjectIdentifier;
use std::fmt;

impl InWords for ObjectIdentifier<'_> {
    ghost use Rattle.der_values.specs.Kinds.{borrowed_octets};
    ghost use Rattle.extension_text.specs.Extensions.{IsPurpose};

    ghost IsText = { λ x. IsPurpose (borrowed_octets x) };

    fn write<W: fmt::Write>(&self, f: &mut fmt::Formatter<W>) -> fmt::Result {
        write_identifier_line(f, "      Purpose: ", self)
    }
}

impl InWords for AccessDescription<'_> {
    ghost use Rattle.der_extensions.specs.Extensions.{access_of};
    ghost use Rattle.extension_text.specs.Extensions.{IsDescription};

    ghost IsText = { λ x. IsDescription (access_of x) };

    fn write<W: fmt::Write>(&self, f: &mut fmt::Formatter<W>) -> fmt::Result {
        write_identifier_line(f, "      Method: ", &self.access_method)?;
        write_general_name(f, "        ", &self.access_location)
    }
}

/// Writes the names that a CA may certify.
pub(crate) fn write_name_constraints<W: fmt::Write>(
    f: &mut fmt::Formatter<W>,
    constraints: &NameConstraints<'_>,
) -> fmt::Result
    ensures { WritesOne W.Write.write_str_gives f.old result
        (IsNameConstraints (name_constraints_of constraints.now)) f.new }
{
    write_optional_subtrees(f, "      Permitted:\n", &constraints.permitted_subtrees)?;
    write_optional_subtrees(f, "      Excluded:\n", &constraints.excluded_subtrees)
}

fn write_optional_subtrees<'a, W: fmt::Write>(
    f: &mut fmt::Formatter<W>,
    heading: &str,
    subtrees: &Option<SequenceOf<'a, GeneralSubtree<'a>>>,
) -> fmt::Result
    ensures { WritesOne W.Write.write_str_gives f.old result
        (AreOptionalSubtrees heading.now (option_map list_octets subtrees.now)) f.new }
{
    match subtrees {
        Some(subtrees) => {
            f.write_str(heading)?;
            write_items(f, subtrees)
        }
        None => Ok(()),
    }
}

impl InWords for GeneralSubtree<'_> {
    ghost use Rattle.der_extensions.specs.Extensions.{subtree_of};
    ghost use Rattle.extension_text.specs.Extensions.{IsSubtree};

    ghost IsText = { λ x. IsSubtree (subtree_of x) };

    fn write<W: fmt::Write>(&self, f: &mut fmt::Formatter<W>) -> fmt::Result {
        write_general_name(f, "        ", &self.base)?;
        write_distances(f, self.minimum, self.maximum)
    }
}

/// Writes the minimum and the maximum of a subtree, unless they have their default.
fn write_distances<W: fmt::Write>(
    f: &mut fmt::Formatter<W>,
    minimum: u32,
    maximum: Option<u32>,
) -> fmt::Result
    ensures { DisplaysOnOk W.Write.write_str_gives f.old result (Some (distances_text minimum maximum)) f.new }
{
    write_minimum(f, minimum)?;
    write_optional_number(f, "          Maximum: ", maximum)
}

fn write_minimum<W: fmt::Write>(f: &mut fmt::Formatter<W>, minimum: u32) -> fmt::Result
    ensures { DisplaysOnOk W.Write.write_str_gives f.old result (Some (minimum_text minimum)) f.new }
{
    if minimum == 0 {
        return Ok(());
    }
    write!(f, "          Minimum: {minimum}\n")
}
