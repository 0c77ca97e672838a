//! Rules of extension values. A value of another type breaks none of them.
ghost use Rattle.std.specs.Prelude.{◌≡◌, ◌≢◌, ◌<◌, ◌<ℤ◌, ◌↔◌, IsTrue, None, length, pos};
ghost use Rattle.der_base.specs.Octets.{integer_value};
ghost use Rattle.der_cursor.specs.Formats.{Required};
ghost use Rattle.der_extensions.specs.Extensions.{AccessDescription as AccessFormat, access_of, authority_of};
ghost use Rattle.x509_rule_facts.specs.Lists.{Among};
ghost use Rattle.x509_value_rules.specs.Sound.{IsBadLocation, IsSound, type_of_rule};
ghost use Rattle.x509_value_rules.specs.ValueRules.{BreaksValue, IsHalf, IsIssuerBroken, IsLocationBroken};
ghost use Rattle.x509_value_rules.specs.ValueRules.{IsOtherMethod};

use crate::issuers::has_distinguished;
use crate::issuing_point::{IssuingPointRule, breaks_issuing_point};
use crate::mappings::maps_any_policy;
use crate::names::{NameRule, breaks_name, has_broken_name, is_bad_name, is_one_name_broken};
use crate::notices::{QualifierRule, has_badly_qualified};
use crate::points::{PointRule, has_broken_point, has_whole_point};
use crate::policies::has_any_with_other;
use crate::subtrees::{SubtreeRule, has_broken_subtree};
use der_base::MAX_RECURSION;
use der_base::integer::is_negative;
use der_base::rules::Rules;
use der_base::time::ASN1DateTime;
use der_elements::check::is_element;
use der_extensions::{
    AccessDescription, AuthorityKeyIdentifier, InformationAccess, read_authority_key_identifier,
    read_certificate_policies, read_crl_distribution_points, read_general_names,
    read_information_access, read_invalidity_date, read_name_constraints, read_policy_mappings,
};
use x509::are_indistinct;
use x509::crl::{Reason, read_reason};
use x509_rule_facts::identifier::has_octets;
use x509_rule_facts::readers::read_number;
use x509_rule_facts::types::{ValueType, is_of_type};

/// A rule of RFC 5280 about the value of an extension.
#[derive(Clone, Copy, Debug, PartialEq)]
pub enum ValueRule {
    /// It has this type (4.2, 5.2, 5.3). A value of another type breaks no other rule but `DerValues`.
    OfType(ValueType),
    /// authorityKeyIdentifier: issuer and serial number are both there, or neither is (4.2.1.1, A.2, MUST).
    IssuerAndSerial,
    /// authorityKeyIdentifier: each name of authorityCertIssuer keeps the rule (4.2.1.1, 4.2.1.6).
    Issuer(NameRule),
    /// certificatePolicies: no policy comes twice (4.2.1.4, MUST NOT), and there are at most `x509::MOST_ITEMS`
    /// (B).
    DistinctPolicies,
    /// certificatePolicies: anyPolicy has no qualifiers but CPS pointers and user notices (4.2.1.4, MUST).
    AnyPolicyQualifiers,
    /// certificatePolicies: each qualifier keeps the rule (4.2.1.4).
    Qualifiers(QualifierRule),
    /// policyMappings: no policy of a mapping is anyPolicy (4.2.1.5, MUST NOT).
    UnmappedAnyPolicy,
    /// subjectAltName, issuerAltName, certificateIssuer: each name keeps the rule (4.2.1.6).
    Names(NameRule),
    /// certificateIssuer: one of the names is a directoryName (5.3.3, MUST).
    DirectoryName,
    /// nameConstraints, policyConstraints, issuingDistributionPoint: the SEQUENCE isn't empty (4.2.1.10, 4.2.1.11,
    /// 5.2.5, MUST NOT).
    NotEmpty,
    /// nameConstraints: each subtree keeps the rule (4.2.1.10).
    Subtrees(SubtreeRule),
    /// cRLDistributionPoints, freshestCRL: each point keeps the rule (4.2.1.13).
    Points(PointRule),
    /// cRLDistributionPoints: at least one point is for all reasons (4.2.1.13, MUST).
    PointForAllReasons,
    /// issuingDistributionPoint: it keeps the rule (5.2.5).
    IssuingPoint(IssuingPointRule),
    /// authorityInfoAccess of a CRL: each method is id-ad-caIssuers (5.2.7, MUST NOT).
    CaIssuers,
    /// authorityInfoAccess, subjectInfoAccess: each location keeps the rule of names (4.2.2.1, 4.2.2.2).
    Locations(NameRule),
    /// cRLNumber, deltaCRLIndicator: the number has at most 20 octets (5.2.3, MUST NOT).
    ShortNumber,
    /// inhibitAnyPolicy, cRLNumber, deltaCRLIndicator: the number isn't negative (4.2.1.14, 5.2.3, 5.2.4).
    NaturalNumber,
    /// invalidityDate: it has no fraction of a second (5.3.2, MUST NOT).
    WholeSeconds,
    /// reasonCode: it isn't unspecified; then the extension should be absent (5.3.1, SHOULD).
    SpecifiedReason,
    /// Values of any type in it are DER too, such as those of attributes and otherNames (A.1, X.690 10): one element by
    /// `der_elements::check`, nested to `MAX_RECURSION`.
    DerValues,
}

impl ValueRule {
    /// The type whose values the rule is about, unless `Reading` leaves the rule out.
    pub(crate) fn value_type(self) -> Option<ValueType>
        ensures { result ≡ type_of_rule self }
    {
        match self {
            ValueRule::OfType(kind) => Some(kind),
            ValueRule::IssuerAndSerial => Some(ValueType::KeyIdentifiers),
            ValueRule::Issuer(_) => Some(ValueType::KeyIdentifiers),
            ValueRule::DistinctPolicies => Some(ValueType::Policies),
            ValueRule::AnyPolicyQualifiers => Some(ValueType::Policies),
            ValueRule::Qualifiers(_) => Some(ValueType::Policies),
            ValueRule::UnmappedAnyPolicy => Some(ValueType::Mappings),
            ValueRule::Names(_) => Some(ValueType::Names),
            ValueRule::DirectoryName => None,
            ValueRule::NotEmpty => None,
            ValueRule::Subtrees(_) => Some(ValueType::NameConstraints),
            ValueRule::Points(_) => Some(ValueType::Points),
            ValueRule::PointForAllReasons => Some(ValueType::Points),
            ValueRule::IssuingPoint(_) => Some(ValueType::IssuingPoint),
            ValueRule::CaIssuers => None,
            ValueRule::Locations(_) => Some(ValueType::Descriptions),
            ValueRule::ShortNumber => Some(ValueType::Number),
            ValueRule::NaturalNumber => Some(ValueType::Number),
            ValueRule::WholeSeconds => Some(ValueType::Date),
            ValueRule::SpecifiedReason => Some(ValueType::Reason),
            ValueRule::DerValues => None,
        }
    }
}

/// An empty SEQUENCE.
const EMPTY_SEQUENCE: &[u8] = b"\x30\x00";

/// id-ad-caIssuers: 1.3.6.1.5.5.7.48.2.
const CA_ISSUERS: &[u8] = b"\x2b\x06\x01\x05\x05\x07\x30\x02";

/// The most octets of a CRL number.
const LONGEST_NUMBER: usize = 20;

/// Returns whether the value of an extension breaks the rule.
pub(crate) fn breaks_value(rule: ValueRule, value: &[u8]) -> bool
    ensures { IsTrue result ↔ BreaksValue rule value.now }
{
    match rule {
        ValueRule::OfType(kind) => !is_of_type(kind, value),
        ValueRule::IssuerAndSerial => breaks_issuer_and_serial(value),
        ValueRule::Issuer(rule) => breaks_issuer(rule, value),
        ValueRule::DistinctPolicies => breaks_distinct_policies(value),
        ValueRule::AnyPolicyQualifiers => breaks_any_policy_qualifiers(value),
        ValueRule::Qualifiers(rule) => breaks_qualifiers(rule, value),
        ValueRule::UnmappedAnyPolicy => breaks_unmapped_any_policy(value),
        ValueRule::Names(rule) => breaks_names(rule, value),
        ValueRule::DirectoryName => breaks_directory_name(value),
        ValueRule::NotEmpty => value == EMPTY_SEQUENCE,
        ValueRule::Subtrees(rule) => breaks_subtrees(rule, value),
        ValueRule::Points(rule) => breaks_points(rule, value),
        ValueRule::PointForAllReasons => is_without_whole_point(value),
        ValueRule::IssuingPoint(rule) => breaks_issuing_point(rule, value),
        ValueRule::CaIssuers => breaks_ca_issuers(value),
        ValueRule::Locations(rule) => breaks_locations(rule, value),
        ValueRule::ShortNumber => breaks_short_number(value),
        ValueRule::NaturalNumber => breaks_natural_number(value),
        ValueRule::WholeSeconds => breaks_whole_seconds(value),
        ValueRule::SpecifiedReason => breaks_specified_reason(value),
        ValueRule::DerValues => !is_element(value, Rules::Der, MAX_RECURSION),
    }
}

fn breaks_issuer_and_serial(value: &[u8]) -> bool
    ensures { IsTrue result ↔ BreaksValue ValueRule.IssuerAndSerial value.now }
{
    match read_authority_key_identifier(value) {
        Ok(authority) => is_half(&authority),
        Err(_) => false,
    }
}

/// Returns whether only one of issuer and serial number is there.
pub(crate) fn is_half(authority: &AuthorityKeyIdentifier<'_>) -> bool
    ensures { IsTrue result ↔ IsHalf (authority_of authority.now) }
{
    let has_issuer = authority.authority_cert_issuer.is_some();
    let has_serial = authority.authority_cert_serial_number.is_some();
    (has_issuer && !has_serial) || (has_serial && !has_issuer)
}

fn breaks_issuer(rule: NameRule, value: &[u8]) -> bool
    ensures { IsTrue result ↔ BreaksValue (ValueRule.Issuer rule) value.now }
{
    match read_authority_key_identifier(value) {
        Ok(authority) => is_issuer_broken(rule, &authority),
        Err(_) => false,
    }
}

/// Returns whether a name of authorityCertIssuer breaks the rule.
fn is_issuer_broken(rule: NameRule, authority: &AuthorityKeyIdentifier<'_>) -> bool
    ensures { IsTrue result ↔ IsIssuerBroken rule (authority_of authority.now) }
{
    is_one_name_broken(rule, &authority.authority_cert_issuer)
}

pub(crate) fn lacks_issuer(authority: &AuthorityKeyIdentifier<'_>) -> bool
    ensures { IsTrue result ↔ ((authority_of authority.now).1.0 ≡ None) }
{
    authority.authority_cert_issuer.is_none()
}

/// Returns whether the octets are certificate policies with one twice, or more than `MOST_ITEMS`.
fn breaks_distinct_policies(value: &[u8]) -> bool
    ensures { IsTrue result ↔ BreaksValue ValueRule.DistinctPolicies value.now }
{
    match read_certificate_policies(value) {
        Ok(policies) => are_indistinct(policies.octets),
        Err(_) => false,
    }
}

/// Returns whether the octets are certificate policies, and anyPolicy has a qualifier other than CPS pointer and user
/// notice.
fn breaks_any_policy_qualifiers(value: &[u8]) -> bool
    ensures { IsTrue result ↔ BreaksValue ValueRule.AnyPolicyQualifiers value.now }
{
    match read_certificate_policies(value) {
        Ok(policies) => has_any_with_other(&policies),
        Err(_) => false,
    }
}

/// Returns whether the octets are certificate policies with a qualifier that breaks the rule.
fn breaks_qualifiers(rule: QualifierRule, value: &[u8]) -> bool
    ensures { IsTrue result ↔ BreaksValue (ValueRule.Qualifiers rule) value.now }
{
    match read_certificate_policies(value) {
        Ok(policies) => has_badly_qualified(rule, &policies),
        Err(_) => false,
    }
}

/// Returns whether the octets are policy mappings with anyPolicy.
fn breaks_unmapped_any_policy(value: &[u8]) -> bool
    ensures { IsTrue result ↔ BreaksValue ValueRule.UnmappedAnyPolicy value.now }
{
    match read_policy_mappings(value) {
        Ok(mappings) => maps_any_policy(&mappings),
        Err(_) => false,
    }
}

/// Returns whether the octets are general names, and one breaks the rule.
fn breaks_names(rule: NameRule, value: &[u8]) -> bool
    ensures { IsTrue result ↔ BreaksValue (ValueRule.Names rule) value.now }
{
    match read_general_names(value) {
        Ok(names) => has_broken_name(rule, &names),
        Err(_) => false,
    }
}

fn breaks_directory_name(value: &[u8]) -> bool
    ensures { IsTrue result ↔ BreaksValue ValueRule.DirectoryName value.now }
{
    match read_general_names(value) {
        Ok(names) => !has_distinguished(&names),
        Err(_) => false,
    }
}

/// Returns whether the octets are name constraints with a subtree that breaks the rule.
fn breaks_subtrees(rule: SubtreeRule, value: &[u8]) -> bool
    ensures { IsTrue result ↔ BreaksValue (ValueRule.Subtrees rule) value.now }
{
    match read_name_constraints(value) {
        Ok(constraints) => has_broken_subtree(rule, &constraints),
        Err(_) => false,
    }
}

/// Returns whether the octets are distribution points, and one breaks the rule.
fn breaks_points(rule: PointRule, value: &[u8]) -> bool
    ensures { IsTrue result ↔ BreaksValue (ValueRule.Points rule) value.now }
{
    match read_crl_distribution_points(value) {
        Ok(points) => has_broken_point(rule, &points),
        Err(_) => false,
    }
}

/// Returns whether the octets are distribution points, and none is for all reasons.
fn is_without_whole_point(value: &[u8]) -> bool
    ensures { IsTrue result ↔ BreaksValue ValueRule.PointForAllReasons value.now }
{
    match read_crl_distribution_points(value) {
        Ok(points) => !has_whole_point(&points),
        Err(_) => false,
    }
}

fn breaks_ca_issuers(value: &[u8]) -> bool
    ensures { IsTrue result ↔ BreaksValue ValueRule.CaIssuers value.now }
{
    match read_information_access(value) {
        Ok(descriptions) => has_other_method(&descriptions),
        Err(_) => false,
    }
}

/// Returns whether one of the methods isn't id-ad-caIssuers.
fn has_other_method(descriptions: &InformationAccess<'_>) -> bool
    ensures { IsTrue result ↔ Among (Required AccessFormat) IsOtherMethod descriptions.now.octets.now }
{
    for description in descriptions.iter() {
        if is_other_method(&description) {
            return true;
        }
    }
    false
}

fn is_other_method(description: &AccessDescription<'_>) -> bool
    ensures { IsTrue result ↔ IsOtherMethod (access_of description.now) }
{
    !has_octets(&description.access_method, CA_ISSUERS)
}

fn breaks_locations(rule: NameRule, value: &[u8]) -> bool
    ensures { IsTrue result ↔ BreaksValue (ValueRule.Locations rule) value.now }
{
    match read_information_access(value) {
        Ok(descriptions) => has_broken_location(rule, &descriptions),
        Err(_) => false,
    }
}

/// Returns whether one of the locations breaks the rule.
fn has_broken_location(rule: NameRule, descriptions: &InformationAccess<'_>) -> bool
    ensures { IsTrue result
        ↔ Among (Required AccessFormat) (IsLocationBroken rule) descriptions.now.octets.now }
{
    for description in descriptions.iter() {
        if is_location_broken(rule, &description) {
            return true;
        }
    }
    false
}

fn is_location_broken(rule: NameRule, description: &AccessDescription<'_>) -> bool
    ensures { IsTrue result ↔ IsLocationBroken rule (access_of description.now) }
{
    breaks_name(rule, &description.access_location)
}

/// Returns whether the octets are access descriptions that break no rule.
pub(crate) fn are_sound_descriptions(value: &[u8]) -> bool
    ensures { IsTrue result → IsSound ValueType.Descriptions value.now }
{
    match read_information_access(value) {
        Ok(descriptions) => !has_bad_location(&descriptions),
        Err(_) => false,
    }
}

/// Returns whether one of the locations breaks any rule.
fn has_bad_location(descriptions: &InformationAccess<'_>) -> bool
    ensures { IsTrue result ↔ Among (Required AccessFormat) IsBadLocation descriptions.now.octets.now }
{
    for description in descriptions.iter() {
        if is_bad_location(&description) {
            return true;
        }
    }
    false
}

fn is_bad_location(description: &AccessDescription<'_>) -> bool
    ensures { IsTrue result ↔ IsBadLocation (access_of description.now) }
{
    is_bad_name(&description.access_location)
}

fn breaks_short_number(value: &[u8]) -> bool
    ensures { IsTrue result ↔ BreaksValue ValueRule.ShortNumber value.now }
{
    match read_number(value) {
        Ok(number) => is_long(number),
        Err(_) => false,
    }
}

fn is_long(number: &[u8]) -> bool
    ensures { IsTrue result ↔ (20 < length number.now) }
{
    number.len() > LONGEST_NUMBER
}

fn breaks_natural_number(value: &[u8]) -> bool
    ensures { IsTrue result ↔ BreaksValue ValueRule.NaturalNumber value.now }
{
    match read_number(value) {
        Ok(number) => is_below_zero(number),
        Err(_) => false,
    }
}

fn is_below_zero(number: &[u8]) -> bool
    ensures { IsTrue result ↔ (integer_value number.now <ℤ pos 0) }
{
    is_negative(number)
}

fn breaks_whole_seconds(value: &[u8]) -> bool
    ensures { IsTrue result ↔ BreaksValue ValueRule.WholeSeconds value.now }
{
    match read_invalidity_date(value) {
        Ok(date) => has_fraction(date),
        Err(_) => false,
    }
}

fn has_fraction(date: ASN1DateTime) -> bool
    ensures { IsTrue result ↔ (date.nanosecond ≢ None) }
{
    date.nanosecond.is_some()
}

fn breaks_specified_reason(value: &[u8]) -> bool
    ensures { IsTrue result ↔ BreaksValue ValueRule.SpecifiedReason value.now }
{
    match read_reason(value) {
        Ok(reason) => is_unspecified(reason),
        Err(_) => false,
    }
}

fn is_unspecified(reason: Reason) -> bool
    ensures { IsTrue result ↔ (reason ≡ Reason.Unspecified) }
{
    reason == Reason::Unspecified
}
