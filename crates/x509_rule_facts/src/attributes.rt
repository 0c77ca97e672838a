//! Attributes of names, and the string types of their values (RFC 5280 A.1).
ghost use Rattle.std.specs.Prelude.{◌≡◌, ◌<◌, ◌↔◌, IsTrue, length, true};
ghost use Rattle.std.specs.List.{count_by};
ghost use Rattle.der_cursor.specs.Elements.{element_of};
ghost use Rattle.x509.specs.Certificates.{attribute, attribute_of, certificate_of};
ghost use Rattle.x509.specs.Lists.{Somewhere};
ghost use Rattle.x509_rule_facts.specs.Attributes.{AreBadKinds, FitsKind, HasBadAttribute, HasKind, HasMistyped};
ghost use Rattle.x509_rule_facts.specs.Attributes.{IsBad, IsMarked, IsMistyped, IsOfKind, IsString, Marks};
ghost use Rattle.x509_rule_facts.specs.Attributes.{begins_character, character_count, kind_count, kind_number};
ghost use Rattle.x509_rule_facts.specs.Attributes.{kind_octets, least_of, most_of, string_of};

use crate::identified::attribute_kind;
use crate::identifier::has_octets;
use der_base::any::Any;
use der_base::header::{Class, Tag};
use x509::{AttributeTypeAndValue, Certificate, Name, RelativeDistinguishedName, absolute_octets};

/// An attribute with a type and a size in RFC 5280 A.1.
#[derive(Clone, Copy, Debug, PartialEq)]
pub enum AttributeKind {
    /// countryName, PrintableString of 2 characters (2.5.4.6).
    CountryName,
    /// serialNumber, PrintableString to 64 characters (2.5.4.5).
    SerialNumber,
    /// dnQualifier, PrintableString (2.5.4.46).
    DnQualifier,
    /// domainComponent, IA5String (0.9.2342.19200300.100.1.25).
    DomainComponent,
    /// emailAddress, IA5String to 255 characters (1.2.840.113549.1.9.1).
    EmailAddress,
    /// commonName, DirectoryString to 64 characters (2.5.4.3).
    CommonName,
    /// organizationName, to 64 (2.5.4.10).
    OrganizationName,
    /// organizationalUnitName, to 64 (2.5.4.11).
    OrganizationalUnitName,
    /// title, to 64 (2.5.4.12).
    Title,
    /// localityName, to 128 (2.5.4.7).
    LocalityName,
    /// stateOrProvinceName, to 128 (2.5.4.8).
    StateOrProvinceName,
    /// pseudonym, to 128 (2.5.4.65).
    Pseudonym,
    /// name, to 32768 (2.5.4.41).
    Name,
    /// surname, to 32768 (2.5.4.4).
    Surname,
    /// givenName, to 32768 (2.5.4.42).
    GivenName,
    /// initials, to 32768 (2.5.4.43).
    Initials,
    /// generationQualifier, to 32768 (2.5.4.44).
    GenerationQualifier,
}

/// The string types that a value may have.
#[derive(Clone, Copy, Debug, PartialEq)]
pub enum StringKind {
    /// PrintableString.
    Printable,
    /// IA5String.
    Ia5,
    /// UTF8String, PrintableString, TeletexString, UniversalString or BMPString.
    Directory,
}

/// The number of kinds.
pub const ATTRIBUTE_KINDS: usize = 17;

impl AttributeKind {
    /// The content octets of the identifier.
    pub fn identifier(self) -> &'static [u8]
        ensures { result.now ≡ kind_octets self }
    {
        match self {
            AttributeKind::CountryName => COUNTRY_NAME,
            AttributeKind::SerialNumber => SERIAL_NUMBER,
            AttributeKind::DnQualifier => DN_QUALIFIER,
            AttributeKind::DomainComponent => DOMAIN_COMPONENT,
            AttributeKind::EmailAddress => EMAIL_ADDRESS,
            AttributeKind::CommonName => COMMON_NAME,
            AttributeKind::OrganizationName => ORGANIZATION_NAME,
            AttributeKind::OrganizationalUnitName => ORGANIZATIONAL_UNIT_NAME,
            AttributeKind::Title => TITLE,
            AttributeKind::LocalityName => LOCALITY_NAME,
            AttributeKind::StateOrProvinceName => STATE_OR_PROVINCE_NAME,
            AttributeKind::Pseudonym => PSEUDONYM,
            AttributeKind::Name => NAME,
            AttributeKind::Surname => SURNAME,
            AttributeKind::GivenName => GIVEN_NAME,
            AttributeKind::Initials => INITIALS,
            AttributeKind::GenerationQualifier => GENERATION_QUALIFIER,
        }
    }

    /// The string types that the value may have.
    pub fn string(self) -> StringKind
        ensures { result ≡ string_of self }
    {
        match self {
            AttributeKind::CountryName => StringKind::Printable,
            AttributeKind::SerialNumber => StringKind::Printable,
            AttributeKind::DnQualifier => StringKind::Printable,
            AttributeKind::DomainComponent => StringKind::Ia5,
            AttributeKind::EmailAddress => StringKind::Ia5,
            AttributeKind::CommonName => StringKind::Directory,
            AttributeKind::OrganizationName => StringKind::Directory,
            AttributeKind::OrganizationalUnitName => StringKind::Directory,
            AttributeKind::Title => StringKind::Directory,
            AttributeKind::LocalityName => StringKind::Directory,
            AttributeKind::StateOrProvinceName => StringKind::Directory,
            AttributeKind::Pseudonym => StringKind::Directory,
            AttributeKind::Name => StringKind::Directory,
            AttributeKind::Surname => StringKind::Directory,
            AttributeKind::GivenName => StringKind::Directory,
            AttributeKind::Initials => StringKind::Directory,
            AttributeKind::GenerationQualifier => StringKind::Directory,
        }
    }

    /// The fewest characters of the value.
    fn least(self) -> usize
        ensures { result ≡ least_of self }
    {
        match self {
            AttributeKind::CountryName => 2,
            AttributeKind::SerialNumber => 1,
            AttributeKind::DnQualifier => 0,
            AttributeKind::DomainComponent => 0,
            AttributeKind::EmailAddress => 1,
            AttributeKind::CommonName => 1,
            AttributeKind::OrganizationName => 1,
            AttributeKind::OrganizationalUnitName => 1,
            AttributeKind::Title => 1,
            AttributeKind::LocalityName => 1,
            AttributeKind::StateOrProvinceName => 1,
            AttributeKind::Pseudonym => 1,
            AttributeKind::Name => 1,
            AttributeKind::Surname => 1,
            AttributeKind::GivenName => 1,
            AttributeKind::Initials => 1,
            AttributeKind::GenerationQualifier => 1,
        }
    }

    /// The most characters of the value, if RFC 5280 has a limit.
    fn most(self) -> Option<usize>
        ensures { result ≡ most_of self }
    {
        match self {
            AttributeKind::CountryName => Some(2),
            AttributeKind::SerialNumber => Some(64),
            AttributeKind::DnQualifier => None,
            AttributeKind::DomainComponent => None,
            AttributeKind::EmailAddress => Some(255),
            AttributeKind::CommonName => Some(64),
            AttributeKind::OrganizationName => Some(64),
            AttributeKind::OrganizationalUnitName => Some(64),
            AttributeKind::Title => Some(64),
            AttributeKind::LocalityName => Some(128),
            AttributeKind::StateOrProvinceName => Some(128),
            AttributeKind::Pseudonym => Some(128),
            AttributeKind::Name => Some(32768),
            AttributeKind::Surname => Some(32768),
            AttributeKind::GivenName => Some(32768),
            AttributeKind::Initials => Some(32768),
            AttributeKind::GenerationQualifier => Some(32768),
        }
    }

    /// The position in the order above, from 0.
    pub fn number(self) -> usize
        ensures number { result ≡ kind_number self }
        ensures few { result < kind_count }
    {
        match self {
            AttributeKind::CountryName => 0,
            AttributeKind::SerialNumber => 1,
            AttributeKind::DnQualifier => 2,
            AttributeKind::DomainComponent => 3,
            AttributeKind::EmailAddress => 4,
            AttributeKind::CommonName => 5,
            AttributeKind::OrganizationName => 6,
            AttributeKind::OrganizationalUnitName => 7,
            AttributeKind::Title => 8,
            AttributeKind::LocalityName => 9,
            AttributeKind::StateOrProvinceName => 10,
            AttributeKind::Pseudonym => 11,
            AttributeKind::Name => 12,
            AttributeKind::Surname => 13,
            AttributeKind::GivenName => 14,
            AttributeKind::Initials => 15,
            AttributeKind::GenerationQualifier => 16,
        }
    }
}

/// Returns for each kind whether the issuer or the subject has an attribute of it with a value of another type. Equal
/// names are read once.
#[inline(never)]
pub fn bad_kinds(certificate: &Certificate<'_>) -> [bool; ATTRIBUTE_KINDS]
    ensures { AreBadKinds (certificate_of certificate.now) result }
{
    let mut bad = [false; ATTRIBUTE_KINDS];
    mark_name(&mut bad, certificate.tbs_certificate.issuer);
    if certificate.is_self_issued() {
        return bad;
    }
    mark_name(&mut bad, certificate.tbs_certificate.subject);
    bad
}

/// Marks the kinds of which the name has an attribute with a value of another type.
fn mark_name(bad: &mut [bool; ATTRIBUTE_KINDS], name: Name<'_>)
    requires { length bad.old ≡ kind_count }
    ensures { Marks (λ k. HasBadAttribute k name.entry.octets.now) bad.old bad.new }
{
    for relative_name in name.relative_names() {
        mark_relative_name(bad, relative_name);
    }
}

/// Marks the kinds of which the relative name has an attribute with a value of another type.
fn mark_relative_name(bad: &mut [bool; ATTRIBUTE_KINDS], name: RelativeDistinguishedName<'_>)
    requires { length bad.old ≡ kind_count }
    ensures { Marks (λ k. Somewhere attribute (λ a _. IsBad k a) name.entry.octets.now) bad.old bad.new }
{
    for attribute in name.attributes() {
        mark_attribute(bad, &attribute);
    }
}

/// Marks the kind of the attribute, if its value has another type.
fn mark_attribute(bad: &mut [bool; ATTRIBUTE_KINDS], attribute: &AttributeTypeAndValue<'_>)
    requires { length bad.old ≡ kind_count }
    ensures { Marks (λ k. IsBad k (attribute_of attribute.now)) bad.old bad.new }
{
    let Some(kind) = attribute_kind(absolute_octets(&attribute.identifier)) else {
        return;
    };
    if !is_of_kind(kind, &attribute.value) {
        bad[kind.number()] = true;
    }
}

/// Returns whether the name has an attribute of the kind.
pub fn has_kind(kind: AttributeKind, name: Name<'_>) -> bool
    ensures { IsTrue result ↔ HasKind kind name.entry.octets.now }
{
    for relative_name in name.relative_names() {
        if has_attribute(kind, relative_name) {
            return true;
        }
    }
    false
}

/// Returns whether the relative name has an attribute of the kind.
fn has_attribute(kind: AttributeKind, name: RelativeDistinguishedName<'_>) -> bool
    ensures { IsTrue result
        ↔ Somewhere attribute (λ a _. a.identifier ≡ kind_octets kind) name.entry.octets.now }
{
    for attribute in name.attributes() {
        if is_attribute(kind, &attribute) {
            return true;
        }
    }
    false
}

fn is_attribute(kind: AttributeKind, attribute: &AttributeTypeAndValue<'_>) -> bool
    ensures { IsTrue result ↔ ((attribute_of attribute.now).identifier ≡ kind_octets kind) }
{
    has_octets(&attribute.identifier, kind.identifier())
}

/// Returns whether the name has an attribute with a value of another type than its kind's.
pub fn has_mistyped(name: Name<'_>) -> bool
    ensures { IsTrue result ↔ HasMistyped name.entry.octets.now }
{
    for relative_name in name.relative_names() {
        if has_mistyped_attribute(relative_name) {
            return true;
        }
    }
    false
}

/// Returns whether the relative name has an attribute with a value of another type than its kind's.
fn has_mistyped_attribute(name: RelativeDistinguishedName<'_>) -> bool
    ensures { IsTrue result ↔ Somewhere attribute (λ a _. IsMistyped a) name.entry.octets.now }
{
    for attribute in name.attributes() {
        if is_mistyped(&attribute) {
            return true;
        }
    }
    false
}

/// Returns whether the attribute has a kind and a value of another type.
fn is_mistyped(attribute: &AttributeTypeAndValue<'_>) -> bool
    ensures { IsTrue result ↔ IsMistyped (attribute_of attribute.now) }
{
    match attribute_kind(absolute_octets(&attribute.identifier)) {
        Some(kind) => !is_of_kind(kind, &attribute.value),
        None => false,
    }
}

/// Returns whether the kind is marked.
#[inline]
pub fn is_marked(bad: &[bool; ATTRIBUTE_KINDS], kind: AttributeKind) -> bool
    requires { length bad.now ≡ kind_count }
    ensures { IsTrue result ↔ IsMarked bad.now kind }
{
    bad[kind.number()]
}

/// Returns whether the value has the type and size of the kind.
fn is_of_kind(kind: AttributeKind, value: &Any<'_>) -> bool
    ensures { IsTrue result ↔ IsOfKind kind (element_of value.now) }
{
    value.class() == Class::Universal
        && value.header.is_primitive()
        && is_string(kind.string(), value.tag())
        && fits_kind(kind, count_characters(value.tag(), value.bytes))
}

/// Returns whether the type is one of these string types.
pub fn is_string(kind: StringKind, tag: Tag) -> bool
    ensures { IsTrue result ↔ IsString kind tag.0 }
{
    match kind {
        StringKind::Printable => tag.0 == 19,
        StringKind::Ia5 => tag.0 == 22,
        StringKind::Directory => {
            tag.0 == 12 || tag.0 == 19 || tag.0 == 20 || tag.0 == 28 || tag.0 == 30
        }
    }
}

/// Returns whether the kind allows `count` characters.
fn fits_kind(kind: AttributeKind, count: usize) -> bool
    ensures { IsTrue result ↔ FitsKind kind count }
{
    match kind.most() {
        Some(most) => kind.least() <= count && count <= most,
        None => true,
    }
}

/// Returns the number of characters of a string.
pub fn count_characters(tag: Tag, octets: &[u8]) -> usize
    ensures { result ≡ character_count tag.0 octets.now }
{
    match tag.0 {
        12 => count_utf8(octets),
        28 => octets.len() / 4,
        30 => octets.len() / 2,
        _ => octets.len(),
    }
}

/// Returns the number of characters in octets of UTF-8.
fn count_utf8(octets: &[u8]) -> usize
    ensures { result ≡ count_by begins_character octets.now }
{
    let mut count = 0;
    for octet in octets {
        if begins_character(*octet) {
            count += 1;
        }
    }
    count
}

/// Returns whether the octet begins a character; continuation octets are 0x80 to 0xbf.
fn begins_character(octet: u8) -> bool
    ensures { result ≡ begins_character octet }
{
    octet < 0x80 || octet >= 0xc0
}

const COUNTRY_NAME: &[u8] = b"\x55\x04\x06";

const SERIAL_NUMBER: &[u8] = b"\x55\x04\x05";

const DN_QUALIFIER: &[u8] = b"\x55\x04\x2e";

const DOMAIN_COMPONENT: &[u8] = b"\x09\x92\x26\x89\x93\xf2\x2c\x64\x01\x19";

const EMAIL_ADDRESS: &[u8] = b"\x2a\x86\x48\x86\xf7\x0d\x01\x09\x01";

const COMMON_NAME: &[u8] = b"\x55\x04\x03";

const ORGANIZATION_NAME: &[u8] = b"\x55\x04\x0a";

const ORGANIZATIONAL_UNIT_NAME: &[u8] = b"\x55\x04\x0b";

const TITLE: &[u8] = b"\x55\x04\x0c";

const LOCALITY_NAME: &[u8] = b"\x55\x04\x07";

const STATE_OR_PROVINCE_NAME: &[u8] = b"\x55\x04\x08";

const PSEUDONYM: &[u8] = b"\x55\x04\x41";

const NAME: &[u8] = b"\x55\x04\x29";

const SURNAME: &[u8] = b"\x55\x04\x04";

const GIVEN_NAME: &[u8] = b"\x55\x04\x2a";

const INITIALS: &[u8] = b"\x55\x04\x2b";

const GENERATION_QUALIFIER: &[u8] = b"\x55\x04\x2c";
