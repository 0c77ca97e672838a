//! Policies (RFC 5280 4.2.1.4, 4.2.1.5, 4.2.1.11).
ghost use Rattle.std.specs.Option.{option_map};
ghost use Rattle.std.specs.Prelude.{Some};
ghost use Rattle.std.specs.Fmt.{DisplaysOnOk};
ghost use Rattle.der_extensions.specs.Lists.{list_octets};
ghost use Rattle.der_print.specs.Writes.{WritesOne};
ghost use Rattle.extension_text.specs.Policies.{AreOptionalQualifiers, policy_constraints_text};

use crate::items::{InWords, write_items};
use crate::names::identifier::{write_identifier, write_identifier_line};
use crate::names::lines::write_optional_number;
use crate::notice::write_detail;
use der_extensions::{
    PolicyConstraints, PolicyInformation, PolicyMapping, PolicyQualifierInfo, SequenceOf,
};
use std::fmt;

impl InWords for PolicyInformation<'_> {
    ghost use Rattle.der_extensions.specs.Extensions.{policy_of};
    ghost use Rattle.extension_text.specs.Policies.{IsPolicy};

    ghost IsText = { λ x. IsPolicy (policy_of x) };

    fn write<W: fmt::Write>(&self, f: &mut fmt::Formatter<W>) -> fmt::Result {
        write_identifier_line(f, "      Policy: ", &self.policy_identifier)?;
        write_optional_qualifiers(f, &self.policy_qualifiers)
    }
}

fn write_optional_qualifiers<'a, W: fmt::Write>(
    f: &mut fmt::Formatter<W>,
    qualifiers: &Option<SequenceOf<'a, PolicyQualifierInfo<'a>>>,
) -> fmt::Result
    ensures { WritesOne W.Write.write_str_gives f.old result
        (AreOptionalQualifiers (option_map list_octets qualifiers.now)) f.new }
{
    match qualifiers {
        Some(qualifiers) => write_items(f, qualifiers),
        None => Ok(()),
    }
}

impl InWords for PolicyQualifierInfo<'_> {
    ghost use Rattle.der_extensions.specs.Extensions.{qualifier_of};
    ghost use Rattle.extension_text.specs.Policies.{IsQualifier};

    ghost IsText = { λ x. IsQualifier (qualifier_of x) };

    fn write<W: fmt::Write>(&self, f: &mut fmt::Formatter<W>) -> fmt::Result {
        f.write_str("        Qualifier: ")?;
        write_identifier(f, &self.policy_qualifier_id)?;
        write_detail(f, self)
    }
}

impl InWords for PolicyMapping<'_> {
    ghost use Rattle.der_extensions.specs.PolicyExtensions.{mapping_of};
    ghost use Rattle.extension_text.specs.Policies.{IsMapping};

    ghost IsText = { λ x. IsMapping (mapping_of x) };

    fn write<W: fmt::Write>(&self, f: &mut fmt::Formatter<W>) -> fmt::Result {
        write_identifier_line(
            f,
            "      Policy of the issuer: ",
            &self.issuer_domain_policy,
        )?;
        write_identifier_line(
            f,
            "        Policy of the subject: ",
            &self.subject_domain_policy,
        )
    }
}

/// Writes after how many certificates of a path policies are required, or no longer mapped.
pub(crate) fn write_policy_constraints<W: fmt::Write>(
    f: &mut fmt::Formatter<W>,
    constraints: PolicyConstraints,
) -> fmt::Result
    ensures { DisplaysOnOk W.Write.write_str_gives f.old result (Some (policy_constraints_text constraints)) f.new }
{
    write_optional_number(
        f,
        "      Require explicit policy: ",
        constraints.require_explicit_policy,
    )?;
    write_optional_number(
        f,
        "      Inhibit policy mapping: ",
        constraints.inhibit_policy_mapping,
    )
}
