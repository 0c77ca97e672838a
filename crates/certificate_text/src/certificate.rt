//! Certificates (RFC 5280 4.1).
ghost use Rattle.std.specs.Option.{option_map};
ghost use Rattle.std.specs.Prelude.{◌≡◌, Some};
ghost use Rattle.std.specs.Fmt.{DisplaysOnOk};
ghost use Rattle.der_print.specs.Writes.{WritesOne};
ghost use Rattle.x509.specs.Certificates.{bits_of, certificate_of, tbs_of};
ghost use Rattle.certificate_text.specs.Certificates.{IsBody, IsCertificateText, IsHolder, IsIdentity, IsSeal};
ghost use Rattle.certificate_text.specs.Certificates.{optional_id, serial_line, unique_ids, version_number};
ghost use Rattle.certificate_text.specs.Certificates.{version_text};

use crate::key::write_key;
use crate::seal::{write_digests, write_signature};
use crate::validity::write_validity;
use der_values::BitString;
use extension_text::extension::write_extensions;
use extension_text::names::identifier::write_identifier_line;
use extension_text::names::lines::write_octets;
use extension_text::names::name::write_name_line;
use extension_text::names::serial::Serial;
use std::fmt;
use x509::{Certificate, TbsCertificate, Version};

/// The summary of a certificate.
#[derive(Clone, Copy)]
pub struct CertificateText<'r, 'a> {
    /// The octets of the certificate.
    pub octets: &'a [u8],
    pub certificate: &'r Certificate<'a>,
    /// The present, in seconds since 1970-01-01 00:00:00 UTC. Without it, the days of validity aren't written.
    pub now: Option<u64>,
}

impl fmt::Display for CertificateText<'_, '_> {
    fn fmt<W: fmt::Write>(&self, f: &mut fmt::Formatter<W>) -> fmt::Result {
        write_certificate(f, self.octets, self.certificate, self.now)
    }
}

/// Writes the summary of a certificate. `octets` is its encoding, and `now` the present, in seconds since 1970-01-01
/// 00:00:00 UTC; without it, the days of validity aren't written.
///
/// Names have the form of RFC 4514. An attribute value is `#` and its element in hexadecimal if its type has no short
/// name, or if it isn't a character string. Serial numbers are in hexadecimal, negative ones in two's complement.
pub fn write_certificate<W: fmt::Write>(
    f: &mut fmt::Formatter<W>,
    octets: &[u8],
    certificate: &Certificate<'_>,
    now: Option<u64>,
) -> fmt::Result
    ensures { WritesOne W.Write.write_str_gives f.old result
        (IsCertificateText now octets.now (certificate_of certificate.now)) f.new }
{
    f.write_str("Certificate\n")?;
    write_body(f, &certificate.tbs_certificate, now)?;
    write_seal(f, octets, certificate)
}

/// Writes the signed fields.
fn write_body<W: fmt::Write>(
    f: &mut fmt::Formatter<W>,
    fields: &TbsCertificate<'_>,
    now: Option<u64>,
) -> fmt::Result
    ensures { WritesOne W.Write.write_str_gives f.old result (IsBody now (tbs_of fields.now)) f.new }
{
    write_identity(f, fields)?;
    write_holder(f, fields, now)?;
    write_key(f, &fields.subject_public_key_info)?;
    write_unique_ids(f, fields)?;
    write_extensions(f, "  Extensions\n", fields.extensions)
}

/// Writes the version, the serial number, the signature algorithm and the issuer.
fn write_identity<W: fmt::Write>(
    f: &mut fmt::Formatter<W>,
    fields: &TbsCertificate<'_>,
) -> fmt::Result
    ensures { WritesOne W.Write.write_str_gives f.old result (IsIdentity (tbs_of fields.now)) f.new }
{
    write_version(f, fields.version)?;
    write_serial_line(f, fields.serial_number)?;
    write_identifier_line(f, "  Signature algorithm: ", &fields.signature.algorithm)?;
    write_name_line(f, "  Issuer: ", fields.issuer)
}

/// Writes the version as it is commonly numbered, one more than encoded.
pub(crate) fn write_version<W: fmt::Write>(
    f: &mut fmt::Formatter<W>,
    version: Version,
) -> fmt::Result
    ensures { DisplaysOnOk W.Write.write_str_gives f.old result (Some (version_text version)) f.new }
{
    write!(f, "  Version: {}\n", version_number(version))
}

fn version_number(version: Version) -> u8
    ensures { result ≡ version_number version }
{
    match version {
        Version::V1 => 1,
        Version::V2 => 2,
        Version::V3 => 3,
    }
}

/// Writes a line with the serial number.
pub(crate) fn write_serial_line<W: fmt::Write>(
    f: &mut fmt::Formatter<W>,
    octets: &[u8],
) -> fmt::Result
    ensures { DisplaysOnOk W.Write.write_str_gives f.old result (Some (serial_line octets.now)) f.new }
{
    write!(f, "  Serial number: {}\n", Serial { octets })
}

/// Writes the validity and the subject.
fn write_holder<W: fmt::Write>(
    f: &mut fmt::Formatter<W>,
    fields: &TbsCertificate<'_>,
    now: Option<u64>,
) -> fmt::Result
    ensures { WritesOne W.Write.write_str_gives f.old result (IsHolder now (tbs_of fields.now)) f.new }
{
    write_validity(f, fields.validity, now)?;
    write_name_line(f, "  Subject: ", fields.subject)
}

/// Writes the unique identifiers, if there are any.
fn write_unique_ids<W: fmt::Write>(
    f: &mut fmt::Formatter<W>,
    fields: &TbsCertificate<'_>,
) -> fmt::Result
    ensures { DisplaysOnOk W.Write.write_str_gives f.old result (Some (unique_ids (tbs_of fields.now))) f.new }
{
    write_optional_id(f, "  Issuer unique ID: ", fields.issuer_unique_id)?;
    write_optional_id(f, "  Subject unique ID: ", fields.subject_unique_id)
}

pub(crate) fn write_optional_id<W: fmt::Write>(
    f: &mut fmt::Formatter<W>,
    label: &str,
    id: Option<BitString<'_>>,
) -> fmt::Result
    ensures { DisplaysOnOk W.Write.write_str_gives f.old result
        (Some (optional_id label.now (option_map bits_of id.entry))) f.new }
{
    match id {
        Some(bits) => write_octets(f, label, bits.octets),
        None => Ok(()),
    }
}

/// Writes the signature and the fingerprints.
fn write_seal<W: fmt::Write>(
    f: &mut fmt::Formatter<W>,
    octets: &[u8],
    certificate: &Certificate<'_>,
) -> fmt::Result
    ensures { WritesOne W.Write.write_str_gives f.old result
        (IsSeal octets.now (certificate_of certificate.now)) f.new }
{
    write_signature(f, certificate.signature_value.octets)?;
    write_digests(f, octets)
}
