//! The fields that were read of a rejected certificate (RFC 5280 4.1).
ghost use Rattle.std.specs.Option.{option_map};
ghost use Rattle.std.specs.Prelude.{Some};
ghost use Rattle.std.specs.Fmt.{DisplaysOnOk};
ghost use Rattle.der_print.specs.Writes.{WritesOne};
ghost use Rattle.x509.specs.Certificates.{algorithm_of, bits_of, key_info_of};
ghost use Rattle.x509.specs.Partial.Partials.{partial_of};
ghost use Rattle.certificate_text.specs.Keys.{IsKey};
ghost use Rattle.certificate_text.specs.Partials.{IsAlgorithmLine, IsPartialHolder, IsPartialIdentity, IsPartialKey};
ghost use Rattle.certificate_text.specs.Partials.{IsPartialName, IsPartialText, partial_ids, partial_serial};
ghost use Rattle.certificate_text.specs.Partials.{partial_validity, partial_version};

use crate::certificate::{write_optional_id, write_serial_line, write_version};
use crate::key::write_key;
use crate::validity::write_validity;
use extension_text::extension::write_extensions;
use extension_text::names::identifier::write_identifier_line;
use extension_text::names::name::write_name_line;
use std::fmt;
use x509::partial::PartialCertificate;
use x509::{AlgorithmIdentifier, Name, SubjectPublicKeyInfo, Validity, Version};

/// The summary of the fields that were read.
#[derive(Clone, Copy)]
pub struct PartialText<'r, 'a> {
    pub partial: &'r PartialCertificate<'a>,
    /// The present, in seconds since 1970-01-01 00:00:00 UTC. Without it, the days of validity aren't written.
    pub now: Option<u64>,
}

impl fmt::Display for PartialText<'_, '_> {
    fn fmt<W: fmt::Write>(&self, f: &mut fmt::Formatter<W>) -> fmt::Result {
        write_partial(f, self.partial, self.now)
    }
}

/// Writes the fields that were read, each as `write_certificate` does. `now` is the present, in seconds since
/// 1970-01-01 00:00:00 UTC; without it, the days of validity aren't written.
pub fn write_partial<W: fmt::Write>(
    f: &mut fmt::Formatter<W>,
    partial: &PartialCertificate<'_>,
    now: Option<u64>,
) -> fmt::Result
    ensures { WritesOne W.Write.write_str_gives f.old result (IsPartialText now (partial_of partial.now)) f.new }
{
    f.write_str("Certificate, up to the error\n")?;
    write_identity(f, partial)?;
    write_holder(f, partial, now)?;
    write_optional_key(f, &partial.subject_public_key_info)?;
    write_ids(f, partial)?;
    write_extensions(f, "  Extensions\n", partial.extensions)
}

/// Writes the version, the serial number, the signature algorithm and the issuer.
fn write_identity<W: fmt::Write>(
    f: &mut fmt::Formatter<W>,
    partial: &PartialCertificate<'_>,
) -> fmt::Result
    ensures { WritesOne W.Write.write_str_gives f.old result (IsPartialIdentity (partial_of partial.now)) f.new }
{
    write_optional_version(f, partial.version)?;
    write_optional_serial(f, partial.serial_number)?;
    write_optional_algorithm(f, &partial.signature)?;
    write_optional_name(f, "  Issuer: ", partial.issuer)
}

/// Writes the validity and the subject.
fn write_holder<W: fmt::Write>(
    f: &mut fmt::Formatter<W>,
    partial: &PartialCertificate<'_>,
    now: Option<u64>,
) -> fmt::Result
    ensures { WritesOne W.Write.write_str_gives f.old result (IsPartialHolder now (partial_of partial.now)) f.new }
{
    write_optional_validity(f, partial.validity, now)?;
    write_optional_name(f, "  Subject: ", partial.subject)
}

/// Writes the unique identifiers, if there are any.
fn write_ids<W: fmt::Write>(
    f: &mut fmt::Formatter<W>,
    partial: &PartialCertificate<'_>,
) -> fmt::Result
    ensures { DisplaysOnOk W.Write.write_str_gives f.old result (Some (partial_ids (partial_of partial.now))) f.new }
{
    write_optional_id(f, "  Issuer unique ID: ", partial.issuer_unique_id)?;
    write_optional_id(f, "  Subject unique ID: ", partial.subject_unique_id)
}

fn write_optional_version<W: fmt::Write>(
    f: &mut fmt::Formatter<W>,
    version: Option<Version>,
) -> fmt::Result
    ensures { DisplaysOnOk W.Write.write_str_gives f.old result (Some (partial_version version)) f.new }
{
    match version {
        Some(version) => write_version(f, version),
        None => Ok(()),
    }
}

fn write_optional_serial<W: fmt::Write>(
    f: &mut fmt::Formatter<W>,
    octets: Option<&[u8]>,
) -> fmt::Result
    ensures { DisplaysOnOk W.Write.write_str_gives f.old result
        (Some (partial_serial (option_map (λ w. w.now) octets.entry))) f.new }
{
    match octets {
        Some(octets) => write_serial_line(f, octets),
        None => Ok(()),
    }
}

fn write_optional_algorithm<W: fmt::Write>(
    f: &mut fmt::Formatter<W>,
    algorithm: &Option<AlgorithmIdentifier<'_>>,
) -> fmt::Result
    ensures { WritesOne W.Write.write_str_gives f.old result
        (IsAlgorithmLine (option_map algorithm_of algorithm.now)) f.new }
{
    match algorithm {
        Some(algorithm) => {
            write_identifier_line(f, "  Signature algorithm: ", &algorithm.algorithm)
        }
        None => Ok(()),
    }
}

fn write_optional_name<W: fmt::Write>(
    f: &mut fmt::Formatter<W>,
    label: &str,
    name: Option<Name<'_>>,
) -> fmt::Result
    ensures { WritesOne W.Write.write_str_gives f.old result
        (IsPartialName label.now (option_map (λ n. n.octets.now) name.entry)) f.new }
{
    match name {
        Some(name) => write_name_line(f, label, name),
        None => Ok(()),
    }
}

fn write_optional_validity<W: fmt::Write>(
    f: &mut fmt::Formatter<W>,
    validity: Option<Validity>,
    now: Option<u64>,
) -> fmt::Result
    ensures { DisplaysOnOk W.Write.write_str_gives f.old result (Some (partial_validity now validity)) f.new }
{
    match validity {
        Some(validity) => write_validity(f, validity, now),
        None => Ok(()),
    }
}

fn write_optional_key<W: fmt::Write>(
    f: &mut fmt::Formatter<W>,
    key: &Option<SubjectPublicKeyInfo<'_>>,
) -> fmt::Result
    ensures { WritesOne W.Write.write_str_gives f.old result (IsPartialKey (option_map key_info_of key.now)) f.new }
{
    match key {
        Some(key) => write_key(f, key),
        None => Ok(()),
    }
}
