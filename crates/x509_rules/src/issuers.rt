//! Whether the issuer of a certificate also signs the CRLs of a distribution point (RFC 5280 4.2.1.13).
ghost use Rattle.std.specs.Prelude.{◌↔◌, IsTrue};
ghost use Rattle.der_cursor.specs.Formats.{Required};
ghost use Rattle.der_extensions.specs.Extensions.{DistributionPoint as PointFormat, point_of};
ghost use Rattle.der_extensions.specs.GeneralNames.{GeneralName as AnyName, name_of};
ghost use Rattle.x509_rule_facts.specs.Lists.{Among};
ghost use Rattle.x509.specs.Certificates.{certificate_of, extension, extension_of};
ghost use Rattle.x509.specs.Lists.{Somewhere};
ghost use Rattle.x509_rules.specs.Issuers.{IsName, IsOfIssuer, PointsTo};
ghost use Rattle.x509_rules.specs.Whole.{HasPointOfIssuer, PointsToIssuer};

use der_extensions::{
    CrlDistributionPoints, DistributionPoint, GeneralName, GeneralNames, KnownExtension,
    read_crl_distribution_points,
};
use x509::{Certificate, Extension, Extensions, Name};
use x509_rule_facts::identifier::has_octets;

/// Returns whether a point of this extension has the certificate's issuer in its cRLIssuer.
pub(crate) fn shows_issuer(certificate: &Certificate<'_>, known: KnownExtension) -> bool
    ensures { IsTrue result ↔ HasPointOfIssuer known (certificate_of certificate.now) }
{
    let fields = &certificate.tbs_certificate;
    has_point_of(fields.extensions, known, fields.issuer)
}

/// Returns whether a point of this extension has the name in its cRLIssuer.
fn has_point_of(extensions: Extensions<'_>, known: KnownExtension, name: Name<'_>) -> bool
    ensures { IsTrue result ↔ Somewhere extension
        (λ e _. PointsToIssuer known name.entry.octets.now e) extensions.entry.octets.now }
{
    for extension in extensions.iter() {
        if points_to_issuer(known, name, &extension) {
            return true;
        }
    }
    false
}

fn points_to_issuer(known: KnownExtension, name: Name<'_>, extension: &Extension<'_>) -> bool
    ensures { IsTrue result ↔ PointsToIssuer known name.entry.octets.now (extension_of extension.now) }
{
    has_octets(&extension.identifier, known.identifier()) && points_to(name, extension.value)
}

/// Returns whether the octets are distribution points, and one has the name in its cRLIssuer.
fn points_to(name: Name<'_>, value: &[u8]) -> bool
    ensures { IsTrue result ↔ PointsTo name.entry.octets.now value.now }
{
    match read_crl_distribution_points(value) {
        Ok(points) => has_point_of_name(name, &points),
        Err(_) => false,
    }
}

/// Returns whether one of the points has the name in its cRLIssuer.
fn has_point_of_name(name: Name<'_>, points: &CrlDistributionPoints<'_>) -> bool
    ensures { IsTrue result
        ↔ Among (Required PointFormat) (IsOfIssuer name.entry.octets.now) points.now.octets.now }
{
    for point in points.iter() {
        if is_of_issuer(name, &point) {
            return true;
        }
    }
    false
}

fn is_of_issuer(name: Name<'_>, point: &DistributionPoint<'_>) -> bool
    ensures { IsTrue result ↔ IsOfIssuer name.entry.octets.now (point_of point.now) }
{
    match &point.crl_issuer {
        Some(issuers) => has_name(name, issuers),
        None => false,
    }
}

/// Returns whether one of the names is a directoryName with the same octets.
fn has_name(name: Name<'_>, names: &GeneralNames<'_>) -> bool
    ensures { IsTrue result ↔ Among AnyName (IsName name.entry.octets.now) names.now.octets.now }
{
    for general_name in names.iter() {
        if is_name(name, &general_name) {
            return true;
        }
    }
    false
}

fn is_name(name: Name<'_>, general_name: &GeneralName<'_>) -> bool
    ensures { IsTrue result ↔ IsName name.entry.octets.now (name_of general_name.now) }
{
    match general_name {
        GeneralName::DirectoryName(other) => other.octets == name.octets,
        _ => false,
    }
}
