//! The results of reading a value once. Without them, each rule about the value would read it again.
ghost use Rattle.std.specs.Prelude.{◌≡◌, ◌↔◌, Bool, IfSome, IsTrue, List, Some, ℕ};
ghost use Rattle.x509_value_rules.specs.Facts.{Holds};
ghost use Rattle.x509_value_rules.specs.Readings.{IsReadingOf, NamesNoIssuer};
ghost use Rattle.x509_value_rules.specs.Sound.{IsSound, type_of_rule};
ghost use Rattle.x509_rule_facts.specs.Types.{IsOfType};
ghost use Rattle.x509_rule_facts.specs.ValueFacts.{ValueSays};
ghost use Rattle.x509_value_rules.specs.ValueRules.{BreaksValue};

use crate::facts::Fact;
use crate::names::{NameRule, has_bad_name};
use crate::notices::has_remark;
use crate::points::{has_bad_point, has_whole_point};
use crate::value_rules::{ValueRule, are_sound_descriptions, is_half, lacks_issuer};
use der_extensions::{
    KnownExtension, read_authority_key_identifier, read_basic_constraints,
    read_certificate_policies, read_crl_distribution_points, read_general_names, read_key_usage,
};
use x509::are_indistinct;
use x509_rule_facts::types::ValueType;
use x509_rule_facts::value_facts::{ValueFact, has_key_identifier, has_path_length};

/// What reading the value of an extension found.
#[derive(Clone, Copy)]
pub enum Reading {
    /// The value wasn't read, has another type or breaks a rule.
    Nothing,
    /// The value has this type and breaks no rule about it.
    Sound(ValueType),
    /// The value is a BasicConstraints.
    Constraints {
        /// cA is TRUE.
        is_authority: bool,
        /// There is a pathLenConstraint.
        has_path_length: bool,
    },
    /// The value is a KeyUsage.
    KeyUsage {
        /// keyCertSign is set.
        signs_certificates: bool,
        /// cRLSign is set.
        signs_lists: bool,
    },
    /// The value is an AuthorityKeyIdentifier.
    KeyIdentifiers {
        /// There is a keyIdentifier.
        has_identifier: bool,
        /// Only one of issuer and serial number is there.
        is_half: bool,
        /// There is no issuer.
        lacks_issuer: bool,
    },
}

/// Reads the value of an extension.
pub(crate) fn read_value(known: KnownExtension, value: &[u8]) -> Reading
    ensures { IsReadingOf result value.now }
{
    match known {
        KnownExtension::SubjectAltName | KnownExtension::IssuerAltName => read_names(value),
        KnownExtension::CertificatePolicies => read_policies(value),
        KnownExtension::CrlDistributionPoints | KnownExtension::FreshestCrl => read_points(value),
        KnownExtension::AuthorityInfoAccess | KnownExtension::SubjectInfoAccess => {
            read_descriptions(value)
        }
        KnownExtension::BasicConstraints => read_constraints(value),
        KnownExtension::KeyUsage => read_usage(value),
        KnownExtension::AuthorityKeyIdentifier => read_key_identifiers(value),
        _ => Reading::Nothing,
    }
}

fn read_names(value: &[u8]) -> Reading
    ensures { IsReadingOf result value.now }
{
    if are_sound_names(value) {
        Reading::Sound(ValueType::Names)
    } else {
        Reading::Nothing
    }
}

/// Returns whether the octets are general names that break no rule.
fn are_sound_names(value: &[u8]) -> bool
    ensures { IsTrue result → IsSound ValueType.Names value.now }
{
    match read_general_names(value) {
        Ok(names) => !has_bad_name(&names),
        Err(_) => false,
    }
}

fn read_policies(value: &[u8]) -> Reading
    ensures { IsReadingOf result value.now }
{
    if are_sound_policies(value) {
        Reading::Sound(ValueType::Policies)
    } else {
        Reading::Nothing
    }
}

/// Returns whether the octets are distinct certificate policies whose only qualifiers are valid CPS pointers.
fn are_sound_policies(value: &[u8]) -> bool
    ensures { IsTrue result → IsSound ValueType.Policies value.now }
{
    match read_certificate_policies(value) {
        Ok(policies) => !has_remark(&policies) && !are_indistinct(policies.octets),
        Err(_) => false,
    }
}

fn read_points(value: &[u8]) -> Reading
    ensures { IsReadingOf result value.now }
{
    if are_sound_points(value) {
        Reading::Sound(ValueType::Points)
    } else {
        Reading::Nothing
    }
}

/// Returns whether the octets are distribution points that break no rule, at least one of them for all reasons.
fn are_sound_points(value: &[u8]) -> bool
    ensures { IsTrue result → IsSound ValueType.Points value.now }
{
    match read_crl_distribution_points(value) {
        Ok(points) => has_whole_point(&points) && !has_bad_point(&points),
        Err(_) => false,
    }
}

fn read_descriptions(value: &[u8]) -> Reading
    ensures { IsReadingOf result value.now }
{
    if are_sound_descriptions(value) {
        Reading::Sound(ValueType::Descriptions)
    } else {
        Reading::Nothing
    }
}

fn read_constraints(value: &[u8]) -> Reading
    ensures { IsReadingOf result value.now }
{
    match read_basic_constraints(value) {
        Ok(constraints) => Reading::Constraints {
            is_authority: constraints.ca,
            has_path_length: has_path_length(&constraints),
        },
        Err(_) => Reading::Nothing,
    }
}

fn read_usage(value: &[u8]) -> Reading
    ensures { IsReadingOf result value.now }
{
    match read_key_usage(value) {
        Ok(usage) => Reading::KeyUsage {
            signs_certificates: usage.key_cert_sign(),
            signs_lists: usage.crl_sign(),
        },
        Err(_) => Reading::Nothing,
    }
}

fn read_key_identifiers(value: &[u8]) -> Reading
    ensures { IsReadingOf result value.now }
{
    match read_authority_key_identifier(value) {
        Ok(authority) => Reading::KeyIdentifiers {
            has_identifier: has_key_identifier(&authority),
            is_half: is_half(&authority),
            lacks_issuer: lacks_issuer(&authority),
        },
        Err(_) => Reading::Nothing,
    }
}

impl Reading {
    /// Returns whether the value shows the fact; None if the reading doesn't tell.
    pub fn shows(self, fact: Fact) -> Option<bool>
        ensures { (c : Bool) (w : List ℕ) → IsReadingOf self w → IfSome result (λ b. IsTrue b ↔ Holds fact c w) }
    {
        match fact {
            Fact::Says(fact) => self.says(fact),
            Fact::Breaks(rule) => self.breaks(rule),
            Fact::Present | Fact::Critical | Fact::NotCritical => None,
        }
    }

    /// Returns whether the value says the fact; None if the reading doesn't tell.
    fn says(self, fact: ValueFact) -> Option<bool>
        ensures { (w : List ℕ) → IsReadingOf self w → IfSome result (λ b. IsTrue b ↔ ValueSays fact w) }
    {
        match (self, fact) {
            (Reading::Constraints { is_authority, .. }, ValueFact::Authority) => Some(is_authority),
            (
                Reading::Constraints {
                    has_path_length,
                    ..
                },
                ValueFact::PathLength,
            ) => { Some(has_path_length) }
            (
                Reading::KeyUsage {
                    signs_certificates,
                    ..
                },
                ValueFact::KeyCertSign,
            ) => { Some(signs_certificates) }
            (Reading::KeyUsage { signs_lists, .. }, ValueFact::CrlSign) => Some(signs_lists),
            (Reading::KeyIdentifiers { has_identifier, .. }, ValueFact::KeyIdentifier) => {
                Some(has_identifier)
            }
            _ => None,
        }
    }

    /// Returns whether the value breaks the rule; None if the reading doesn't tell.
    fn breaks(self, rule: ValueRule) -> Option<bool>
        ensures { (w : List ℕ) → IsReadingOf self w → IfSome result (λ b. IsTrue b ↔ BreaksValue rule w) }
    {
        match self {
            Reading::Nothing => None,
            Reading::Sound(kind) => sound_breaks(kind, rule),
            Reading::Constraints { .. } => read_breaks(ValueType::Constraints, rule),
            Reading::KeyUsage { .. } => read_breaks(ValueType::KeyUsage, rule),
            Reading::KeyIdentifiers {
                is_half,
                lacks_issuer,
                ..
            } => key_identifiers_break(is_half, lacks_issuer, rule),
        }
    }
}

/// Returns whether a value that breaks no rule about its type breaks this rule, if that is known.
fn sound_breaks(kind: ValueType, rule: ValueRule) -> Option<bool>
    ensures { (w : List ℕ) → IsSound kind w → IfSome result (λ b. IsTrue b ↔ BreaksValue rule w) }
{
    if is_about(rule, kind) {
        Some(false)
    } else {
        None
    }
}

/// Returns whether a value of the type breaks the rule, if that is known.
fn read_breaks(kind: ValueType, rule: ValueRule) -> Option<bool>
    ensures { (w : List ℕ) → IsOfType kind w → IfSome result (λ b. IsTrue b ↔ BreaksValue rule w) }
{
    match rule {
        ValueRule::OfType(asked) => is_no_other(kind, asked),
        _ => None,
    }
}

/// Returns false if the types are the same. Else None: a value may have both types.
fn is_no_other(kind: ValueType, asked: ValueType) -> Option<bool>
    ensures { (w : List ℕ) → IsOfType kind w → IfSome result (λ b. IsTrue b ↔ (¬ IsOfType asked w)) }
{
    if asked == kind { Some(false) } else { None }
}

/// Returns whether an AuthorityKeyIdentifier breaks the rule, if that is known.
fn key_identifiers_break(is_half: bool, lacks_issuer: bool, rule: ValueRule) -> Option<bool>
    ensures { (w : List ℕ) → IsOfType ValueType.KeyIdentifiers w
        → IsTrue is_half ↔ BreaksValue ValueRule.IssuerAndSerial w → NamesNoIssuer lacks_issuer w
        → IfSome result (λ b. IsTrue b ↔ BreaksValue rule w) }
{
    match rule {
        ValueRule::IssuerAndSerial => Some(is_half),
        ValueRule::Issuer(rule) => no_issuer_breaks(lacks_issuer, rule),
        _ => read_breaks(ValueType::KeyIdentifiers, rule),
    }
}

/// Returns false if there is no issuer, so that none of its names breaks the rule.
fn no_issuer_breaks(lacks_issuer: bool, rule: NameRule) -> Option<bool>
    ensures { (w : List ℕ) → NamesNoIssuer lacks_issuer w
        → IfSome result (λ b. IsTrue b ↔ BreaksValue (ValueRule.Issuer rule) w) }
{
    if lacks_issuer { Some(false) } else { None }
}

/// Returns whether the rule is about values of the type.
fn is_about(rule: ValueRule, kind: ValueType) -> bool
    ensures { IsTrue result ↔ (type_of_rule rule ≡ Some kind) }
{
    match rule.value_type() {
        Some(its_own) => its_own == kind,
        None => false,
    }
}
