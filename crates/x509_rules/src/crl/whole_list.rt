//! Rules of a CRL as a whole (RFC 5280 5.1, 5.2).
ghost use Rattle.std.specs.Prelude.{◌≡◌, ◌↔◌, IsTrue, Some, []};
ghost use Rattle.std.specs.Option.{IsSomeAnd, option_map};
ghost use Rattle.x509.specs.Crl.Lists.{certificate_list_of};
ghost use Rattle.x509.specs.Rules.{HasFraction, IsEarly};
ghost use Rattle.x509_rules.specs.Crl.Examined.{IsExaminedList, signed_list_of};
ghost use Rattle.x509_rules.specs.Crl.WholeLists.{BreaksWholeList, HasRemoval, IsDelta, ListTells};

use crate::crl::entries::EntryRule;
use crate::crl::examined::{ExaminedList, breaks_of_entry, list_has};
use crate::crl::fields::{has_fraction, is_early, is_same};
use der_extensions::KnownExtension;
use x509::crl::{CertificateList, RevokedCertificates};
use x509::{Time, Version, are_indistinct, has_descent, name_breaks_der, parameters_break_der};
use x509_rule_facts::attributes::has_mistyped;
use x509_rule_facts::value_facts::ValueFact;
use x509_value_rules::facts::Fact;

/// A rule of RFC 5280 about a CRL as a whole. A delta CRL has a deltaCRLIndicator (5.2.4).
#[derive(Clone, Copy, Debug, PartialEq)]
pub enum WholeListRule {
    /// `signatureAlgorithm` is the signed `signature` (5.1.1.2, 5.1.2.2, MUST).
    SameAlgorithms,
    /// A CRL with extensions has version 2 (5.1.2.1, MUST).
    SecondVersion,
    /// The issuer has a name (5.1.2.3, MUST).
    NamedIssuer,
    /// The attributes of each relative name of the issuer ascend, as DER requires of a SET OF (5.1.2.3, 5.1, X.690
    /// 11.6).
    OrderedAttributes,
    /// The issuer's attributes with a type in A.1 have values of that type (5.1.2.3, A.1).
    TypedAttributes,
    /// The values of any type are DER (X.690 10): parameters of both algorithms and attribute values of the issuer, as
    /// in `x509::Rule::DerValues`.
    DerValues,
    /// A date to the end of 2049 is a UTCTime (5.1.2.4, 5.1.2.5, MUST).
    UtcTimeTo2049,
    /// A date has no fraction of a second (5.1.2.4, 5.1.2.5, 4.1.2.5.2, MUST NOT).
    WholeSeconds,
    /// There is a nextUpdate (5.1.2.5, MUST).
    NextUpdate,
    /// No extension comes twice (5.2, 4.2, MUST NOT), and there are at most `x509::MOST_ITEMS` (B).
    DistinctExtensions,
    /// There are entries, or the list of them is absent (5.1.2.6, MUST).
    SomeEntries,
    /// There is an authorityKeyIdentifier with a keyIdentifier (5.2.1, MUST).
    KeyIdentifierOfIssuer,
    /// There is a cRLNumber (5.2.3, MUST).
    Number,
    /// A delta CRL has no freshestCRL (5.2.6, MUST NOT).
    FreshestOfComplete,
    /// Only a delta CRL has the reason removeFromCRL (5.3.1, MUST).
    RemovalOfDelta,
}

/// Returns whether the CRL breaks the rule.
pub(crate) fn breaks_whole_list(rule: WholeListRule, list: &ExaminedList<'_, '_>) -> bool
    requires { IsExaminedList list.now }
    ensures { IsTrue result ↔ BreaksWholeList rule (signed_list_of list.now) }
{
    match rule {
        WholeListRule::SameAlgorithms => breaks_same_algorithms(list.signed),
        WholeListRule::SecondVersion => breaks_second_version(list.signed),
        WholeListRule::NamedIssuer => breaks_named_issuer(list.signed),
        WholeListRule::OrderedAttributes => breaks_ordered_attributes(list.signed),
        WholeListRule::TypedAttributes => breaks_typed_attributes(list.signed),
        WholeListRule::DerValues => breaks_der_values(list.signed),
        WholeListRule::UtcTimeTo2049 => breaks_utc_time_to_2049(list.signed),
        WholeListRule::WholeSeconds => breaks_whole_seconds(list.signed),
        WholeListRule::NextUpdate => breaks_next_update(list.signed),
        WholeListRule::DistinctExtensions => breaks_distinct_extensions(list.signed),
        WholeListRule::SomeEntries => breaks_some_entries(list.signed),
        WholeListRule::KeyIdentifierOfIssuer => breaks_key_identifier_of_issuer(list),
        WholeListRule::Number => breaks_number(list),
        WholeListRule::FreshestOfComplete => breaks_freshest_of_complete(list),
        WholeListRule::RemovalOfDelta => breaks_removal_of_delta(list),
    }
}

fn breaks_same_algorithms(list: &CertificateList<'_>) -> bool
    ensures { IsTrue result ↔ BreaksWholeList WholeListRule.SameAlgorithms (certificate_list_of list.now) }
{
    !is_same(&list.signature_algorithm, &list.tbs_cert_list.signature)
}

fn breaks_second_version(list: &CertificateList<'_>) -> bool
    ensures { IsTrue result ↔ BreaksWholeList WholeListRule.SecondVersion (certificate_list_of list.now) }
{
    list.tbs_cert_list.version != Version::V2
        && !list.tbs_cert_list.crl_extensions.octets.is_empty()
}

fn breaks_named_issuer(list: &CertificateList<'_>) -> bool
    ensures { IsTrue result ↔ BreaksWholeList WholeListRule.NamedIssuer (certificate_list_of list.now) }
{
    list.tbs_cert_list.issuer.octets.is_empty()
}

fn breaks_ordered_attributes(list: &CertificateList<'_>) -> bool
    ensures { IsTrue result ↔ BreaksWholeList WholeListRule.OrderedAttributes (certificate_list_of list.now) }
{
    has_descent(list.tbs_cert_list.issuer)
}

fn breaks_typed_attributes(list: &CertificateList<'_>) -> bool
    ensures { IsTrue result ↔ BreaksWholeList WholeListRule.TypedAttributes (certificate_list_of list.now) }
{
    has_mistyped(list.tbs_cert_list.issuer)
}

fn breaks_der_values(list: &CertificateList<'_>) -> bool
    ensures { IsTrue result ↔ BreaksWholeList WholeListRule.DerValues (certificate_list_of list.now) }
{
    let fields = &list.tbs_cert_list;
    parameters_break_der(&list.signature_algorithm)
        || parameters_break_der(&fields.signature)
        || name_breaks_der(fields.issuer)
}

fn breaks_utc_time_to_2049(list: &CertificateList<'_>) -> bool
    ensures { IsTrue result ↔ BreaksWholeList WholeListRule.UtcTimeTo2049 (certificate_list_of list.now) }
{
    is_early(list.tbs_cert_list.this_update) || is_next_early(list.tbs_cert_list.next_update)
}

fn breaks_whole_seconds(list: &CertificateList<'_>) -> bool
    ensures { IsTrue result ↔ BreaksWholeList WholeListRule.WholeSeconds (certificate_list_of list.now) }
{
    has_fraction(list.tbs_cert_list.this_update)
        || has_next_fraction(list.tbs_cert_list.next_update)
}

fn breaks_next_update(list: &CertificateList<'_>) -> bool
    ensures { IsTrue result ↔ BreaksWholeList WholeListRule.NextUpdate (certificate_list_of list.now) }
{
    list.tbs_cert_list.next_update.is_none()
}

fn breaks_distinct_extensions(list: &CertificateList<'_>) -> bool
    ensures { IsTrue result ↔ BreaksWholeList WholeListRule.DistinctExtensions (certificate_list_of list.now) }
{
    are_indistinct(list.tbs_cert_list.crl_extensions.octets)
}

fn breaks_some_entries(list: &CertificateList<'_>) -> bool
    ensures { IsTrue result ↔ BreaksWholeList WholeListRule.SomeEntries (certificate_list_of list.now) }
{
    is_empty_list(&list.tbs_cert_list.revoked_certificates)
}

fn breaks_key_identifier_of_issuer(list: &ExaminedList<'_, '_>) -> bool
    requires { IsExaminedList list.now }
    ensures { IsTrue result ↔ BreaksWholeList WholeListRule.KeyIdentifierOfIssuer (signed_list_of list.now) }
{
    !list_tells(list, ValueFact::KeyIdentifier)
}

fn breaks_number(list: &ExaminedList<'_, '_>) -> bool
    requires { IsExaminedList list.now }
    ensures { IsTrue result ↔ BreaksWholeList WholeListRule.Number (signed_list_of list.now) }
{
    !list_has(list, KnownExtension::CrlNumber, Fact::Present)
}

fn breaks_freshest_of_complete(list: &ExaminedList<'_, '_>) -> bool
    requires { IsExaminedList list.now }
    ensures { IsTrue result ↔ BreaksWholeList WholeListRule.FreshestOfComplete (signed_list_of list.now) }
{
    is_delta(list) && list_has(list, KnownExtension::FreshestCrl, Fact::Present)
}

fn breaks_removal_of_delta(list: &ExaminedList<'_, '_>) -> bool
    requires { IsExaminedList list.now }
    ensures { IsTrue result ↔ BreaksWholeList WholeListRule.RemovalOfDelta (signed_list_of list.now) }
{
    has_removal(list) && !is_delta(list)
}

fn is_next_early(next: Option<Time>) -> bool
    ensures { IsTrue result ↔ IsSomeAnd next IsEarly }
{
    match next {
        Some(time) => is_early(time),
        None => false,
    }
}

fn has_next_fraction(next: Option<Time>) -> bool
    ensures { IsTrue result ↔ IsSomeAnd next HasFraction }
{
    match next {
        Some(time) => has_fraction(time),
        None => false,
    }
}

/// Returns whether the list of entries is there and empty.
fn is_empty_list(entries: &Option<RevokedCertificates<'_>>) -> bool
    ensures { IsTrue result ↔ (option_map (λ r. r.octets.now) entries.now ≡ Some []) }
{
    match entries {
        Some(entries) => entries.octets.is_empty(),
        None => false,
    }
}

/// Returns whether it is a delta CRL.
fn is_delta(list: &ExaminedList<'_, '_>) -> bool
    requires { IsExaminedList list.now }
    ensures { IsTrue result ↔ IsDelta (signed_list_of list.now) }
{
    list_has(list, KnownExtension::DeltaCrlIndicator, Fact::Present)
}

/// Returns whether an entry has the reason removeFromCRL.
fn has_removal(list: &ExaminedList<'_, '_>) -> bool
    requires { IsExaminedList list.now }
    ensures { IsTrue result ↔ HasRemoval (signed_list_of list.now) }
{
    let removal = EntryRule::Without(
        KnownExtension::ReasonCode,
        Fact::Says(ValueFact::RemoveFromCrl),
    );
    breaks_of_entry(removal, list)
}

/// Returns whether the value of the fact's extension says it.
fn list_tells(list: &ExaminedList<'_, '_>, fact: ValueFact) -> bool
    requires { IsExaminedList list.now }
    ensures { IsTrue result ↔ ListTells fact (signed_list_of list.now) }
{
    list_has(list, fact.extension(), Fact::Says(fact))
}
