//! Rules of the entries of a CRL (RFC 5280 5.1.2.6, 5.3).
ghost use Rattle.std.specs.Prelude.{◌↔◌, IsTrue};
ghost use Rattle.std.specs.Option.{option_map};
ghost use Rattle.x509.specs.Crl.Lists.{revoked_certificate, revoked_of};
ghost use Rattle.x509.specs.Lists.{Somewhere};
ghost use Rattle.x509_rules.specs.Crl.Entries.{BreaksEntry, SomeEntry};

use crate::crl::fields::{has_fraction, is_early, is_positive};
use der_extensions::KnownExtension;
use x509::are_indistinct;
use x509::crl::{RevokedCertificate, RevokedCertificates};
use x509_value_rules::facts::{Fact, shows};

/// A rule of RFC 5280 about an entry of a CRL.
#[derive(Clone, Copy, Debug, PartialEq)]
pub enum EntryRule {
    /// The serial number is positive (4.1.2.2, MUST).
    PositiveSerialNumber,
    /// The serial number has at most 20 octets (4.1.2.2, MUST).
    ShortSerialNumber,
    /// A date to the end of 2049 is a UTCTime (5.1.2.6, 5.1.2.4, MUST).
    UtcTimeTo2049,
    /// A date has no fraction of a second (5.1.2.6, 4.1.2.5.2, MUST NOT).
    WholeSeconds,
    /// No extension of the entry comes twice (5.3, 4.2, MUST NOT), and it has at most `x509::MOST_ITEMS` (B).
    DistinctExtensions,
    /// No extension of the entry shows the fact.
    Without(KnownExtension, Fact),
}

/// The most octets of a serial number.
const LONGEST_SERIAL_NUMBER: usize = 20;

/// Returns whether an entry of the CRL breaks the rule.
pub(crate) fn is_entry_broken(rule: EntryRule, entries: &Option<RevokedCertificates<'_>>) -> bool
    ensures { IsTrue result ↔ SomeEntry rule (option_map (λ r. r.octets.now) entries.now) }
{
    match entries {
        Some(entries) => is_one_broken(rule, *entries),
        None => false,
    }
}

/// Returns whether one of the entries breaks the rule.
fn is_one_broken(rule: EntryRule, entries: RevokedCertificates<'_>) -> bool
    ensures { IsTrue result
        ↔ Somewhere revoked_certificate (λ e _. BreaksEntry rule e) entries.entry.octets.now }
{
    for entry in entries.iter() {
        if breaks_entry(rule, &entry) {
            return true;
        }
    }
    false
}

/// Returns whether the entry breaks the rule.
pub(crate) fn breaks_entry(rule: EntryRule, entry: &RevokedCertificate<'_>) -> bool
    ensures { IsTrue result ↔ BreaksEntry rule (revoked_of entry.now) }
{
    match rule {
        EntryRule::PositiveSerialNumber => !is_positive(entry.user_certificate),
        EntryRule::ShortSerialNumber => entry.user_certificate.len() > LONGEST_SERIAL_NUMBER,
        EntryRule::UtcTimeTo2049 => is_early(entry.revocation_date),
        EntryRule::WholeSeconds => has_fraction(entry.revocation_date),
        EntryRule::DistinctExtensions => are_indistinct(entry.crl_entry_extensions.octets),
        EntryRule::Without(known, fact) => shows(entry.crl_entry_extensions, known, fact),
    }
}
