//! CRLs (RFC 5280 5.1).
ghost use Rattle.std.specs.Option.{option_map};
ghost use Rattle.std.specs.Prelude.{Some};
ghost use Rattle.std.specs.Fmt.{DisplaysOnOk};
ghost use Rattle.x509.specs.Crl.Lists.{certificate_list_of, revoked_of, tbs_of};
ghost use Rattle.der_print.specs.Writes.{WritesOne};
ghost use Rattle.x509.specs.Certificates.{extension_of};
ghost use Rattle.certificate_text.specs.Lists.{AreEntries, AreEntryExtensions, AreOptionalEntries, IsEntry};
ghost use Rattle.certificate_text.specs.Lists.{IsEntryExtension, IsListBody, IsListText, updates_text};
ghost use Rattle.certificate_text.specs.Lists.{next_update_text};

use crate::certificate::write_version;
use crate::expiry::write_optional_expiry;
use crate::reason::write_entry_value;
use crate::seal::{write_digests, write_signature};
use crate::validity::write_time;
use extension_text::extension::{write_extensions, write_heading};
use extension_text::names::identifier::write_identifier_line;
use extension_text::names::name::write_name_line;
use extension_text::names::serial::Serial;
use std::fmt;
use x509::crl::{CertificateList, RevokedCertificate, RevokedCertificates, TbsCertList};
use x509::{Extension, Extensions, Time};

/// The summary of a CRL.
#[derive(Clone, Copy)]
pub struct ListText<'r, 'a> {
    /// The octets of the CRL.
    pub octets: &'a [u8],
    pub list: &'r CertificateList<'a>,
    /// The present, in seconds since 1970-01-01 00:00:00 UTC. Without it, the days to the next update aren't written.
    pub now: Option<u64>,
}

impl fmt::Display for ListText<'_, '_> {
    fn fmt<W: fmt::Write>(&self, f: &mut fmt::Formatter<W>) -> fmt::Result {
        write_list(f, self.octets, self.list, self.now)
    }
}

/// Writes the summary of a CRL, with a part for each entry. `octets` is its encoding, and `now` the present, in seconds
/// since 1970-01-01 00:00:00 UTC; without it, the days to the next update aren't written.
pub fn write_list<W: fmt::Write>(
    f: &mut fmt::Formatter<W>,
    octets: &[u8],
    list: &CertificateList<'_>,
    now: Option<u64>,
) -> fmt::Result
    ensures { WritesOne W.Write.write_str_gives f.old result
        (IsListText now octets.now (certificate_list_of list.now)) f.new }
{
    f.write_str("Certificate revocation list\n")?;
    write_list_body(f, &list.tbs_cert_list, now)?;
    write_signature(f, list.signature_value.octets)?;
    write_digests(f, octets)
}

/// Writes the signed fields.
fn write_list_body<W: fmt::Write>(
    f: &mut fmt::Formatter<W>,
    fields: &TbsCertList<'_>,
    now: Option<u64>,
) -> fmt::Result
    ensures { WritesOne W.Write.write_str_gives f.old result (IsListBody now (tbs_of fields.now)) f.new }
{
    write_version(f, fields.version)?;
    write_identifier_line(f, "  Signature algorithm: ", &fields.signature.algorithm)?;
    write_name_line(f, "  Issuer: ", fields.issuer)?;
    write_updates(f, fields.this_update, fields.next_update, now)?;
    write_extensions(f, "  Extensions\n", fields.crl_extensions)?;
    write_optional_entries(f, fields.revoked_certificates)
}

/// Writes the times of this update and of the next one.
fn write_updates<W: fmt::Write>(
    f: &mut fmt::Formatter<W>,
    this: Time,
    next: Option<Time>,
    now: Option<u64>,
) -> fmt::Result
    ensures { DisplaysOnOk W.Write.write_str_gives f.old result (Some (updates_text now this next)) f.new }
{
    write_time(f, "  This update: ", this)?;
    write_next_update(f, next, now)
}

fn write_next_update<W: fmt::Write>(
    f: &mut fmt::Formatter<W>,
    next: Option<Time>,
    now: Option<u64>,
) -> fmt::Result
    ensures { DisplaysOnOk W.Write.write_str_gives f.old result (Some (next_update_text now next)) f.new }
{
    match next {
        Some(time) => {
            write_time(f, "  Next update: ", time)?;
            write_optional_expiry(f, now, time)
        }
        None => Ok(()),
    }
}

fn write_optional_entries<W: fmt::Write>(
    f: &mut fmt::Formatter<W>,
    entries: Option<RevokedCertificates<'_>>,
) -> fmt::Result
    ensures { WritesOne W.Write.write_str_gives f.old result
        (AreOptionalEntries (option_map (λ r. r.octets.now) entries.entry)) f.new }
{
    match entries {
        Some(entries) => {
            f.write_str("  Revoked certificates\n")?;
            write_entries(f, entries)
        }
        None => Ok(()),
    }
}

fn write_entries<W: fmt::Write>(
    f: &mut fmt::Formatter<W>,
    entries: RevokedCertificates<'_>,
) -> fmt::Result
    ensures { WritesOne W.Write.write_str_gives f.old result (AreEntries entries.entry.octets.now) f.new }
{
    for entry in entries.iter() {
        write_entry(f, &entry)?;
    }
    Ok(())
}

/// Writes the serial number, the date and the extensions of an entry.
fn write_entry<W: fmt::Write>(
    f: &mut fmt::Formatter<W>,
    entry: &RevokedCertificate<'_>,
) -> fmt::Result
    ensures { WritesOne W.Write.write_str_gives f.old result (IsEntry (revoked_of entry.now)) f.new }
{
    let octets = entry.user_certificate;
    write!(f, "    Serial number: {}\n", Serial { octets })?;
    write_time(f, "      Date: ", entry.revocation_date)?;
    write_entry_extensions(f, entry.crl_entry_extensions)
}

fn write_entry_extensions<W: fmt::Write>(
    f: &mut fmt::Formatter<W>,
    extensions: Extensions<'_>,
) -> fmt::Result
    ensures { WritesOne W.Write.write_str_gives f.old result (AreEntryExtensions extensions.entry.octets.now) f.new }
{
    for extension in extensions.iter() {
        write_entry_extension(f, &extension)?;
    }
    Ok(())
}

fn write_entry_extension<W: fmt::Write>(
    f: &mut fmt::Formatter<W>,
    extension: &Extension<'_>,
) -> fmt::Result
    ensures { WritesOne W.Write.write_str_gives f.old result (IsEntryExtension (extension_of extension.now)) f.new }
{
    write_heading(f, "      ", extension)?;
    write_entry_value(f, extension)
}
