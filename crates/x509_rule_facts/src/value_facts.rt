//! What the value of an extension says. A value of another type says nothing.
ghost use Rattle.std.specs.Prelude.{◌≡◌, ◌≢◌, ◌↔◌, IsTrue, None};
ghost use Rattle.der_cursor.specs.Formats.{ObjectIdentifier as IdentifierFormat, Required};
ghost use Rattle.der_extensions.specs.Extensions.{AccessDescription as AccessFormat, access_of, authority_of};
ghost use Rattle.der_extensions.specs.Extensions.{constraints_of};
ghost use Rattle.x509_rule_facts.specs.Lists.{Among};
ghost use Rattle.der_extensions.specs.GeneralNames.{GeneralName as AnyName, name_of};
ghost use Rattle.x509_rule_facts.specs.ValueFacts.{IsMailboxName, IsOcspResponder, ValueSays, any_extended_key_usage};
ghost use Rattle.x509_rule_facts.specs.ValueFacts.{extension_of_fact};

use crate::identifier::has_octets;
use der_extensions::{
    AccessDescription, AuthorityKeyIdentifier, BasicConstraints, ExtendedKeyUsage, GeneralName,
    GeneralNames, InformationAccess, KnownExtension, read_authority_key_identifier,
    read_basic_constraints, read_extended_key_usage, read_general_names, read_information_access,
    read_key_usage,
};
use x509::crl::{Reason, read_reason};

/// What the value of an extension may say, as rules ask it.
#[derive(Clone, Copy, Debug, PartialEq)]
pub enum ValueFact {
    /// basicConstraints: the subject is a certification authority (RFC 5280 4.2.1.9).
    Authority,
    /// basicConstraints: there is a pathLenConstraint (4.2.1.9).
    PathLength,
    /// keyUsage: keyCertSign, the key verifies signatures of certificates (4.2.1.3).
    KeyCertSign,
    /// keyUsage: cRLSign, the key verifies signatures of CRLs (4.2.1.3).
    CrlSign,
    /// authorityKeyIdentifier: there is a keyIdentifier (4.2.1.1).
    KeyIdentifier,
    /// extKeyUsage: anyExtendedKeyUsage is among the purposes (4.2.1.12).
    AnyPurpose,
    /// authorityInfoAccess: id-ad-ocsp is among the methods (4.2.2.1).
    OcspResponder,
    /// reasonCode: removeFromCRL (5.3.1).
    RemoveFromCrl,
    /// subjectAltName: there is an rfc822Name (4.2.1.6).
    Mailbox,
}

impl ValueFact {
    /// Returns the extension that the fact is about.
    #[inline]
    pub fn extension(self) -> KnownExtension
        ensures { result ≡ extension_of_fact self }
    {
        match self {
            ValueFact::Authority | ValueFact::PathLength => KnownExtension::BasicConstraints,
            ValueFact::KeyCertSign | ValueFact::CrlSign => KnownExtension::KeyUsage,
            ValueFact::KeyIdentifier => KnownExtension::AuthorityKeyIdentifier,
            ValueFact::AnyPurpose => KnownExtension::ExtendedKeyUsage,
            ValueFact::OcspResponder => KnownExtension::AuthorityInfoAccess,
            ValueFact::RemoveFromCrl => KnownExtension::ReasonCode,
            ValueFact::Mailbox => KnownExtension::SubjectAltName,
        }
    }
}

/// anyExtendedKeyUsage: 2.5.29.37.0.
const ANY_EXTENDED_KEY_USAGE: &[u8] = b"\x55\x1d\x25\x00";

/// id-ad-ocsp: 1.3.6.1.5.5.7.48.1.
const OCSP: &[u8] = b"\x2b\x06\x01\x05\x05\x07\x30\x01";

/// Returns whether the value of the fact's extension says it.
pub fn says(fact: ValueFact, value: &[u8]) -> bool
    ensures { IsTrue result ↔ ValueSays fact value.now }
{
    match fact {
        ValueFact::Authority => says_authority(value),
        ValueFact::PathLength => says_path_length(value),
        ValueFact::KeyCertSign => says_key_cert_sign(value),
        ValueFact::CrlSign => says_crl_sign(value),
        ValueFact::KeyIdentifier => says_key_identifier(value),
        ValueFact::AnyPurpose => says_any_purpose(value),
        ValueFact::OcspResponder => says_ocsp_responder(value),
        ValueFact::RemoveFromCrl => says_remove_from_crl(value),
        ValueFact::Mailbox => says_mailbox(value),
    }
}

fn says_authority(value: &[u8]) -> bool
    ensures { IsTrue result ↔ ValueSays ValueFact.Authority value.now }
{
    match read_basic_constraints(value) {
        Ok(constraints) => constraints.ca,
        Err(_) => false,
    }
}

fn says_path_length(value: &[u8]) -> bool
    ensures { IsTrue result ↔ ValueSays ValueFact.PathLength value.now }
{
    match read_basic_constraints(value) {
        Ok(constraints) => has_path_length(&constraints),
        Err(_) => false,
    }
}

/// Returns whether there is a pathLenConstraint.
#[inline]
pub fn has_path_length(constraints: &BasicConstraints) -> bool
    ensures { IsTrue result ↔ ((constraints_of constraints.now).1.0 ≢ None) }
{
    constraints.path_length.is_some()
}

fn says_key_cert_sign(value: &[u8]) -> bool
    ensures { IsTrue result ↔ ValueSays ValueFact.KeyCertSign value.now }
{
    match read_key_usage(value) {
        Ok(usage) => usage.key_cert_sign(),
        Err(_) => false,
    }
}

fn says_crl_sign(value: &[u8]) -> bool
    ensures { IsTrue result ↔ ValueSays ValueFact.CrlSign value.now }
{
    match read_key_usage(value) {
        Ok(usage) => usage.crl_sign(),
        Err(_) => false,
    }
}

fn says_key_identifier(value: &[u8]) -> bool
    ensures { IsTrue result ↔ ValueSays ValueFact.KeyIdentifier value.now }
{
    match read_authority_key_identifier(value) {
        Ok(authority) => has_key_identifier(&authority),
        Err(_) => false,
    }
}

/// Returns whether there is a keyIdentifier.
#[inline]
pub fn has_key_identifier(authority: &AuthorityKeyIdentifier<'_>) -> bool
    ensures { IsTrue result ↔ ((authority_of authority.now).0 ≢ None) }
{
    authority.key_identifier.is_some()
}

fn says_any_purpose(value: &[u8]) -> bool
    ensures { IsTrue result ↔ ValueSays ValueFact.AnyPurpose value.now }
{
    match read_extended_key_usage(value) {
        Ok(purposes) => has_any_purpose(&purposes),
        Err(_) => false,
    }
}

/// Returns whether one of the purposes is anyExtendedKeyUsage.
fn has_any_purpose(purposes: &ExtendedKeyUsage<'_>) -> bool
    ensures { IsTrue result
        ↔ Among (Required IdentifierFormat) (λ x. x ≡ any_extended_key_usage) purposes.now.octets.now }
{
    for purpose in purposes.iter() {
        if has_octets(&purpose, ANY_EXTENDED_KEY_USAGE) {
            return true;
        }
    }
    false
}

fn says_ocsp_responder(value: &[u8]) -> bool
    ensures { IsTrue result ↔ ValueSays ValueFact.OcspResponder value.now }
{
    match read_information_access(value) {
        Ok(descriptions) => has_ocsp_responder(&descriptions),
        Err(_) => false,
    }
}

/// Returns whether one of the methods is id-ad-ocsp.
fn has_ocsp_responder(descriptions: &InformationAccess<'_>) -> bool
    ensures { IsTrue result ↔ Among (Required AccessFormat) IsOcspResponder descriptions.now.octets.now }
{
    for description in descriptions.iter() {
        if is_ocsp_responder(&description) {
            return true;
        }
    }
    false
}

fn is_ocsp_responder(description: &AccessDescription<'_>) -> bool
    ensures { IsTrue result ↔ IsOcspResponder (access_of description.now) }
{
    has_octets(&description.access_method, OCSP)
}

fn says_remove_from_crl(value: &[u8]) -> bool
    ensures { IsTrue result ↔ ValueSays ValueFact.RemoveFromCrl value.now }
{
    match read_reason(value) {
        Ok(reason) => is_removal(reason),
        Err(_) => false,
    }
}

fn is_removal(reason: Reason) -> bool
    ensures { IsTrue result ↔ (reason ≡ Reason.RemoveFromCrl) }
{
    reason == Reason::RemoveFromCrl
}

fn says_mailbox(value: &[u8]) -> bool
    ensures { IsTrue result ↔ ValueSays ValueFact.Mailbox value.now }
{
    match read_general_names(value) {
        Ok(names) => has_mailbox(&names),
        Err(_) => false,
    }
}

/// Returns whether one of the names is an rfc822Name.
fn has_mailbox(names: &GeneralNames<'_>) -> bool
    ensures { IsTrue result ↔ Among AnyName IsMailboxName names.now.octets.now }
{
    for name in names.iter() {
        if is_mailbox_name(&name) {
            return true;
        }
    }
    false
}

fn is_mailbox_name(name: &GeneralName<'_>) -> bool
    ensures { IsTrue result ↔ IsMailboxName (name_of name.now) }
{
    match name {
        GeneralName::Rfc822Name(_) => true,
        _ => false,
    }
}
