//! Finds extensions by their kind, a subject's alternative names, and whether a certificate is valid.
ghost use Rattle.std.specs.Prelude.{◌≡◌, ◌↔◌, IsTrue, MatchOption};
ghost use Rattle.c_formats.specs.Found.{FindsDns, FindsExtension, IsDns, IsValidAt, ReadsAltNames, ReturnsDns};
ghost use Rattle.c_formats.specs.Found.{ReturnsKind, TakesDns, first_second, moment_in};
ghost use Rattle.certificate_text.specs.Expiry.{second_of};
ghost use Rattle.der_extensions.specs.GeneralNames.{dns_name, name_of};

use crate::certificate::DmCertificate;
use crate::items::{DmExtension, extension};
use crate::lists::{next_extension, next_item};
use crate::writing::write_list;
use c_values::fault::{DmFault, no_fault, rule_fault};
use c_values::octets::DmOctets;
use c_values::time::DmTime;
use certificate_text::expiry::{DAY, EPOCH, second_of};
use der_base::error::BerError;
use der_base::time::{ASN1DateTime, ASN1TimeZone};
use der_extensions::{GeneralName, read_general_names};
use x509::Rule;

/// The kind of a SubjectAltName (`DM_SUBJECT_ALT_NAME`).
const SUBJECT_ALT_NAME: u32 = 17;

/// The first extension of this kind in a list, and the rest of the list.
pub fn first_of_kind<'a>(
    mut extensions: DmOctets<'a>,
    kind: u32,
) -> Option<(DmExtension<'a>, DmOctets<'a>)>
    ensures { ReturnsKind kind extensions.entry.octets.now result }
{
    while let Some(found) = next_extension(&mut extensions) {
        let found = extension(&found);
        if found.kind == kind {
            return Some((found, extensions));
        }
    }
    None
}

/// Writes the first extension of this kind. Returns 1, or 0 if there is none.
pub fn find_extension<'a>(extensions: DmOctets<'a>, kind: u32, written: &mut DmExtension<'a>) -> u32
    ensures { FindsExtension kind extensions.entry.octets.now written.old written.new result }
{
    match first_of_kind(extensions, kind) {
        Some((found, _)) => {
            *written = found;
            1
        }
        None => 0,
    }
}

/// Writes the names of the one SubjectAltName (RFC 5280 4.2.1.6), or none if there isn't any. Returns the fault.
pub fn write_alt_names<'a>(extensions: DmOctets<'a>, names: &mut DmOctets<'a>) -> DmFault
    ensures { ReadsAltNames extensions.entry.octets.now names.old names.new result }
{
    let Some((found, rest)) = first_of_kind(extensions, SUBJECT_ALT_NAME) else {
        names.octets = &[];
        return no_fault();
    };
    match first_of_kind(rest, SUBJECT_ALT_NAME) {
        Some(_) => rule_fault(Rule::DistinctExtensions),
        None => write_list(read_general_names(found.value), names),
    }
}

/// Takes the names of a list up to the first DNS name, and writes it. Returns 1, or 0 if there is none.
pub fn take_dns_name<'a>(names: &mut DmOctets<'a>, written: &mut DmOctets<'a>) -> u32
    ensures { TakesDns names.old names.new written.old written.new result }
{
    match first_dns_name(*names) {
        Some((text, rest)) => {
            written.octets = text.as_bytes();
            *names = rest;
            1
        }
        None => 0,
    }
}

/// The first DNS name of a list, and the rest of the list.
fn first_dns_name<'a>(mut names: DmOctets<'a>) -> Option<(&'a str, DmOctets<'a>)>
    ensures { ReturnsDns names.entry.octets.now result }
{
    while let Some(name) = next_item::<GeneralName<'a>, BerError>(&mut names) {
        if let Some(text) = dns_text(name) {
            return Some((text, names));
        }
    }
    None
}

/// The text of a DNS name.
fn dns_text<'a>(name: GeneralName<'a>) -> Option<&'a str>
    ensures { MatchOption result (¬ IsDns (name_of name.entry)) (λ s. name_of name.entry ≡ dns_name s.now) }
{
    match name {
        GeneralName::DnsName(text) => Some(text),
        _ => None,
    }
}

/// Returns whether a certificate is valid at this second since 1970-01-01 00:00:00 UTC.
pub fn is_valid_at(certificate: &DmCertificate<'_>, now: u64) -> bool
    ensures { IsTrue result ↔ IsValidAt certificate.now now }
{
    let now = u128::from(now) + u128::from(EPOCH * DAY);
    let end = second_of(moment_of(&certificate.not_after.time));
    first_second(&certificate.not_before.time) <= now && now <= u128::from(end)
}

/// The first whole second that isn't before a time.
fn first_second(time: &DmTime) -> u128
    ensures { result ≡ first_second time.now }
{
    u128::from(second_of(moment_of(time))) + u128::from(time.nanosecond != 0)
}

/// The date and the time of day.
fn moment_of(time: &DmTime) -> ASN1DateTime
    ensures { result ≡ moment_in time.now }
{
    ASN1DateTime {
        year: time.year,
        month: time.month,
        day: time.day,
        hour: time.hour,
        minute: time.minute,
        second: time.second,
        nanosecond: None,
        tz: ASN1TimeZone::Z,
    }
}
