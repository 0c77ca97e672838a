//! Attributes by their identifier.
ghost use Rattle.std.specs.Prelude.{◌≡◌, Some};
ghost use Rattle.x509_rule_facts.specs.Attributes.{id_at, kind_octets};
ghost use Rattle.x509_rule_facts.specs.Identified.{IdentifiesKind};

use crate::attributes::AttributeKind;

/// Returns the kind of attribute with this identifier, given its content octets.
pub(crate) fn attribute_kind(octets: &[u8]) -> Option<AttributeKind>
    ensures { IdentifiesKind octets.now result }
{
    let Some(kind) = likely_kind(octets) else {
        return None;
    };
    if kind.identifier() == octets {
        Some(kind)
    } else {
        None
    }
}

/// Returns the only candidate, by the number of octets and the last one.
fn likely_kind(octets: &[u8]) -> Option<AttributeKind>
    ensures { (k : AttributeKind) → octets.now ≡ kind_octets k → result ≡ Some k }
{
    let Some(last) = octets.last() else {
        return None;
    };
    match octets.len() {
        3 => id_at_kind(*last),
        9 => Some(AttributeKind::EmailAddress),
        10 => Some(AttributeKind::DomainComponent),
        _ => None,
    }
}

/// Returns the kind of id-at whose identifier ends in this octet.
fn id_at_kind(last: u8) -> Option<AttributeKind>
    ensures { IdentifiesKind (id_at last) result }
{
    match last {
        0x06 => Some(AttributeKind::CountryName),
        0x05 => Some(AttributeKind::SerialNumber),
        0x2e => Some(AttributeKind::DnQualifier),
        0x03 => Some(AttributeKind::CommonName),
        0x0a => Some(AttributeKind::OrganizationName),
        0x0b => Some(AttributeKind::OrganizationalUnitName),
        0x0c => Some(AttributeKind::Title),
        0x07 => Some(AttributeKind::LocalityName),
        0x08 => Some(AttributeKind::StateOrProvinceName),
        0x41 => Some(AttributeKind::Pseudonym),
        0x29 => Some(AttributeKind::Name),
        0x04 => Some(AttributeKind::Surname),
        0x2a => Some(AttributeKind::GivenName),
        0x2b => Some(AttributeKind::Initials),
        0x2c => Some(AttributeKind::GenerationQualifier),
        _ => None,
    }
}
