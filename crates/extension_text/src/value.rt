//! The values of extensions (RFC 5280 4.2).
ghost use Rattle.der_print.specs.Writes.{WritesOne};
ghost use Rattle.extension_text.specs.Extensions.{IsRead, IsValue};

use crate::authority::{write_authority, write_constraints};
use crate::general_name::write_general_names;
use crate::items::write_items;
use crate::lists::write_name_constraints;
use crate::names::lines::{write_moment, write_number, write_octets};
use crate::points::write_issuing_point;
use crate::policies::write_policy_constraints;
use crate::timestamps::write_timestamps;
use crate::unread::{error_in, write_unread};
use crate::usage::write_usage;
use crate::web::write_organization;
use der_extensions::{ExtensionValue, read_extension_value};
use std::fmt;
use x509::Extension;

/// Writes the value of an extension, or its error and its octets if it has another type.
pub(crate) fn write_extension_value<W: fmt::Write>(
    f: &mut fmt::Formatter<W>,
    extension: &Extension<'_>,
) -> fmt::Result
    ensures { WritesOne W.Write.write_str_gives f.old result (IsRead extension.now) f.new }
{
    match read_extension_value(extension) {
        Ok(value) => write_value(f, extension.value, &value),
        Err(e) => write_unread(f, "      ", extension.value, error_in(extension.value, &e)),
    }
}

fn write_value<W: fmt::Write>(
    f: &mut fmt::Formatter<W>,
    octets: &[u8],
    value: &ExtensionValue<'_>,
) -> fmt::Result
    ensures { WritesOne W.Write.write_str_gives f.old result (IsValue octets.now value.now) f.new }
{
    match value {
        ExtensionValue::AuthorityKeyIdentifier(authority) => write_authority(f, authority),
        ExtensionValue::SubjectKeyIdentifier(key) => write_octets(f, "      Key identifier: ", key),
        ExtensionValue::KeyUsage(usage) => write_usage(f, usage),
        ExtensionValue::CertificatePolicies(policies) => write_items(f, policies),
        ExtensionValue::SubjectAltName(names) => write_general_names(f, "      ", names),
        ExtensionValue::IssuerAltName(names) => write_general_names(f, "      ", names),
        ExtensionValue::BasicConstraints(constraints) => write_constraints(f, constraints),
        ExtensionValue::NameConstraints(constraints) => write_name_constraints(f, constraints),
        ExtensionValue::ExtendedKeyUsage(purposes) => write_items(f, purposes),
        ExtensionValue::CrlDistributionPoints(points) => write_items(f, points),
        ExtensionValue::FreshestCrl(points) => write_items(f, points),
        ExtensionValue::AuthorityInfoAccess(access) => write_items(f, access),
        ExtensionValue::SubjectInfoAccess(access) => write_items(f, access),
        ExtensionValue::PolicyMappings(mappings) => write_items(f, mappings),
        ExtensionValue::SubjectDirectoryAttributes(attributes) => write_items(f, attributes),
        ExtensionValue::PolicyConstraints(constraints) => write_policy_constraints(f, *constraints),
        ExtensionValue::InhibitAnyPolicy(count) => write!(f, "      Skip certificates: {count}\n"),
        ExtensionValue::CrlNumber(number) => write_number(f, "      Number: ", number),
        ExtensionValue::DeltaCrlIndicator(number) => write_number(f, "      Base number: ", number),
        ExtensionValue::IssuingDistributionPoint(point) => write_issuing_point(f, point),
        ExtensionValue::InvalidityDate(date) => write_moment(f, "      Invalid since: ", *date),
        ExtensionValue::CertificateIssuer(names) => write_general_names(f, "      ", names),
        ExtensionValue::SignedCertificateTimestamps(timestamps) => write_timestamps(f, timestamps),
        ExtensionValue::PrecertificatePoison => Ok(()),
        ExtensionValue::TlsFeatures(features) => write_items(f, features),
        ExtensionValue::OcspNoCheck => Ok(()),
        ExtensionValue::NoRevAvail => Ok(()),
        ExtensionValue::QcStatements(statements) => write_items(f, statements),
        ExtensionValue::OrganizationIdentifier(organization) => write_organization(f, organization),
        _ => write_octets(f, "      Octets: ", octets),
    }
}
