//! Extensions of the web, and subject attributes.
ghost use Rattle.std.specs.Prelude.{Some};
ghost use Rattle.std.specs.Fmt.{DisplaysOnOk};
ghost use Rattle.der_extensions.specs.WebExtensions.{organization_identifier_of};
ghost use Rattle.extension_text.specs.Web.{feature_text, organization_text};

use crate::items::{InWords, write_items};
use crate::names::element::AnyValue;
use crate::names::identifier::write_identifier_line;
use crate::names::lines::{write_optional_any, write_optional_plain, write_plain};
use der_base::any::Any;
use der_extensions::{DirectoryAttribute, OrganizationIdentifier, QcStatement, TlsFeature};
use std::fmt;

impl InWords for DirectoryAttribute<'_> {
    ghost use Rattle.der_extensions.specs.PolicyExtensions.{directory_attribute_of};
    ghost use Rattle.extension_text.specs.Web.{IsDirectoryAttribute};

    ghost IsText = { λ x. IsDirectoryAttribute (directory_attribute_of x) };

    fn write<W: fmt::Write>(&self, f: &mut fmt::Formatter<W>) -> fmt::Result {
        write_identifier_line(f, "      Attribute: ", &self.identifier)?;
        write_items(f, &self.values)
    }
}

impl InWords for Any<'_> {
    ghost use Rattle.der_cursor.specs.Elements.{element_of};
    ghost use Rattle.extension_text.specs.Web.{IsAttributeValue};

    ghost IsText = { λ x. IsAttributeValue (element_of x) };

    fn write<W: fmt::Write>(&self, f: &mut fmt::Formatter<W>) -> fmt::Result {
        let element = *self;
        write!(f, "        Value: {}\n", AnyValue { element })
    }
}

/// The number of the TLS extension status_request (RFC 6066).
const STATUS_REQUEST: u32 = 5;

/// The number of the TLS extension status_request_v2 (RFC 6961).
const STATUS_REQUEST_V2: u32 = 17;

impl InWords for TlsFeature {
    ghost use Rattle.der_extensions.specs.WebExtensions.{feature_of};
    ghost use Rattle.extension_text.specs.Web.{IsFeature};

    ghost IsText = { λ x. IsFeature (feature_of x) };

    fn write<W: fmt::Write>(&self, f: &mut fmt::Formatter<W>) -> fmt::Result {
        f.write_str("      Feature: ")?;
        write_feature(f, self.number)?;
        f.write_str("\n")
    }
}

/// Writes the name of a TLS extension, if it is known here, and its number.
fn write_feature<W: fmt::Write>(f: &mut fmt::Formatter<W>, number: u32) -> fmt::Result
    ensures { DisplaysOnOk W.Write.write_str_gives f.old result (Some (feature_text number)) f.new }
{
    match number {
        STATUS_REQUEST => f.write_str("status_request (5)"),
        STATUS_REQUEST_V2 => f.write_str("status_request_v2 (17)"),
        _ => write!(f, "{number}"),
    }
}

impl InWords for QcStatement<'_> {
    ghost use Rattle.der_extensions.specs.WebExtensions.{statement_of};
    ghost use Rattle.extension_text.specs.Web.{IsStatement};

    ghost IsText = { λ x. IsStatement (statement_of x) };

    fn write<W: fmt::Write>(&self, f: &mut fmt::Formatter<W>) -> fmt::Result {
        write_identifier_line(f, "      Statement: ", &self.statement_id)?;
        write_optional_any(f, "        Information: ", self.statement_info)
    }
}

/// Writes the register of an organization.
pub(crate) fn write_organization<W: fmt::Write>(
    f: &mut fmt::Formatter<W>,
    organization: &OrganizationIdentifier<'_>,
) -> fmt::Result
    ensures { DisplaysOnOk W.Write.write_str_gives f.old result
        (Some (organization_text (organization_identifier_of organization.now))) f.new }
{
    write_plain(
        f,
        "      Scheme: ",
        organization.registration_scheme_identifier,
    )?;
    write_plain(f, "      Country: ", organization.registration_country)?;
    write_optional_plain(
        f,
        "      State or province: ",
        organization.registration_state_or_province,
    )?;
    write_plain(f, "      Reference: ", organization.registration_reference)
}
