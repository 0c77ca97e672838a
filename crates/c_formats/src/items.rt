//! Items of lists for C.
ghost use Rattle.std.specs.Prelude.{◌≡◌, []};
ghost use Rattle.c_formats.specs.Items.{HasAttribute, HasExtension, IsExtensionKind, kind_number, name_in};
ghost use Rattle.c_formats.specs.Items.{name_parts};
ghost use Rattle.der_extensions.specs.GeneralNames.{name_of};
ghost use Rattle.x509.specs.Certificates.{extension_of};

use c_values::element::{bit, class_number};
use c_values::parts::identifier_octets;
use der_extensions::{GeneralName, KnownExtension, known_extension};
use x509::{AttributeTypeAndValue, Extension};

/// An attribute of a name (RFC 5280 4.1.2.4).
#[repr(C)]
#[derive(Clone, Copy)]
pub struct DmAttribute<'a> {
    /// The content octets of the type's OID.
    pub identifier: &'a [u8],
    /// The content octets of its value.
    pub value: &'a [u8],
    /// The tag number of the value.
    pub number: u32,
    /// The class of the value, from 0 to 3.
    pub tag_class: u8,
    /// 1 if the value is constructed, else 0.
    pub constructed: u8,
    /// 0.
    pub reserved: u16,
}

/// An extension (RFC 5280 4.1.2.9).
#[repr(C)]
#[derive(Clone, Copy)]
pub struct DmExtension<'a> {
    /// The content octets of the extension's OID.
    pub identifier: &'a [u8],
    /// The encoding of the value, whose type `identifier` names.
    pub value: &'a [u8],
    /// 1 if an application that doesn't know the extension must reject the certificate, else 0.
    pub critical: u32,
    /// The kind of extension: the last arc of its OID, or a number from 256 on; 0 if it is unknown.
    pub kind: u32,
}

/// A general name of one of nine kinds (RFC 5280 4.2.1.6).
#[repr(C)]
#[derive(Clone, Copy)]
pub struct DmGeneralName<'a> {
    /// The octets of the name.
    pub octets: &'a [u8],
    /// Kind 0: the content octets of the type's OID.
    pub identifier: &'a [u8],
    /// The kind: the tag number, from 0 to 8.
    pub kind: u32,
    /// 0.
    pub reserved: u32,
}

/// The C struct of an attribute.
pub fn attribute<'a>(found: &AttributeTypeAndValue<'a>) -> DmAttribute<'a>
    ensures { HasAttribute found.now result }
{
    let header = &found.value.header;
    DmAttribute {
        identifier: identifier_octets(found.identifier),
        value: found.value.bytes,
        number: header.tag().0,
        tag_class: class_number(header.class()),
        constructed: bit(header.constructed()),
        reserved: 0,
    }
}

/// The C struct of an extension.
pub fn extension<'a>(found: &Extension<'a>) -> DmExtension<'a>
    ensures { HasExtension (extension_of found.now) result }
{
    let identifier = identifier_octets(found.identifier);
    DmExtension {
        identifier,
        value: found.value,
        critical: bit(found.critical).into(),
        kind: extension_kind(identifier),
    }
}

/// The kind of the extension with this OID, given its content octets; 0 if it is unknown.
fn extension_kind(identifier: &[u8]) -> u32
    ensures { IsExtensionKind identifier.now result }
{
    match known_extension(identifier) {
        Some(known) => kind_number(known),
        None => 0,
    }
}

/// The kind of an extension: the last arc of its OID, or a number from 256 on.
fn kind_number(known: KnownExtension) -> u32
    ensures { result ≡ kind_number known }
{
    match known {
        KnownExtension::AuthorityInfoAccess => 1,
        KnownExtension::QcStatements => 3,
        KnownExtension::SubjectDirectoryAttributes => 9,
        KnownExtension::SubjectInfoAccess => 11,
        KnownExtension::SubjectKeyIdentifier => 14,
        KnownExtension::KeyUsage => 15,
        KnownExtension::SubjectAltName => 17,
        KnownExtension::IssuerAltName => 18,
        KnownExtension::BasicConstraints => 19,
        KnownExtension::CrlNumber => 20,
        KnownExtension::ReasonCode => 21,
        KnownExtension::InvalidityDate => 24,
        KnownExtension::DeltaCrlIndicator => 27,
        KnownExtension::IssuingDistributionPoint => 28,
        KnownExtension::CertificateIssuer => 29,
        KnownExtension::NameConstraints => 30,
        KnownExtension::CrlDistributionPoints => 31,
        KnownExtension::CertificatePolicies => 32,
        KnownExtension::PolicyMappings => 33,
        KnownExtension::AuthorityKeyIdentifier => 35,
        KnownExtension::PolicyConstraints => 36,
        KnownExtension::ExtendedKeyUsage => 37,
        KnownExtension::FreshestCrl => 46,
        KnownExtension::InhibitAnyPolicy => 54,
        KnownExtension::NoRevAvail => 56,
        KnownExtension::TlsFeature => 256,
        KnownExtension::OcspNoCheck => 257,
        KnownExtension::SignedCertificateTimestamps => 258,
        KnownExtension::PrecertificatePoison => 259,
        KnownExtension::OrganizationIdentifier => 260,
    }
}

/// The C struct of a name.
pub(crate) fn general_name<'a>(name: GeneralName<'a>) -> DmGeneralName<'a>
    ensures { name_in result ≡ name_parts (name_of name.entry) }
{
    match name {
        GeneralName::OtherName(name) => DmGeneralName {
            octets: name.value.bytes,
            identifier: identifier_octets(name.type_id),
            kind: 0,
            reserved: 0,
        },
        GeneralName::Rfc822Name(text) => name_of_kind(1, text.as_bytes()),
        GeneralName::DnsName(text) => name_of_kind(2, text.as_bytes()),
        GeneralName::X400Address(content) => name_of_kind(3, content),
        GeneralName::DirectoryName(name) => name_of_kind(4, name.octets),
        GeneralName::EdiPartyName(content) => name_of_kind(5, content),
        GeneralName::UniformResourceIdentifier(text) => name_of_kind(6, text.as_bytes()),
        GeneralName::IpAddress(address) => name_of_kind(7, address),
        GeneralName::RegisteredId(identifier) => name_of_kind(8, identifier_octets(identifier)),
    }
}

/// A name that has octets alone.
fn name_of_kind<'a>(kind: u32, octets: &'a [u8]) -> DmGeneralName<'a>
    ensures { name_in result ≡ (octets.now, [], kind, 0) }
{
    DmGeneralName {
        octets,
        identifier: &[],
        kind,
        reserved: 0,
    }
}
