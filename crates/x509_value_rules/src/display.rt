//! The texts of broken rules of values, with the section of RFC 5280.

use crate::facts::Fact;
use crate::issuing_point::IssuingPointRule;
use crate::names::NameRule;
use crate::notices::{NoticeRule, QualifierRule};
use crate::points::PointRule;
use crate::subtrees::SubtreeRule;
use crate::value_rules::ValueRule;
use std::fmt;

/// What an extension shows, as it follows the name: "is critical".
impl fmt::Display for Fact {
    fn fmt<W: fmt::Write>(&self, f: &mut fmt::Formatter<W>) -> fmt::Result {
        match self {
            Fact::Present => f.write_str("is there"),
            Fact::Critical => f.write_str("is critical"),
            Fact::NotCritical => f.write_str("isn't critical"),
            Fact::Says(fact) => write!(f, "says {fact:?}"),
            Fact::Breaks(rule) => write!(f, "breaks a rule: {}", value_text(*rule)),
        }
    }
}

/// The text of a broken rule of a value, with its section.
pub fn value_text(rule: ValueRule) -> &'static str {
    match rule {
        ValueRule::OfType(_) => "it isn't of its type (RFC 5280 4.2, 5.2, 5.3)",
        ValueRule::IssuerAndSerial => "an issuer or a serial number alone (RFC 5280 4.2.1.1)",
        ValueRule::Issuer(rule) => name_text(rule),
        ValueRule::DistinctPolicies =>
            "a policy comes twice, or there are more than 512 (RFC 5280 4.2.1.4)",
        ValueRule::AnyPolicyQualifiers => "another qualifier of anyPolicy (RFC 5280 4.2.1.4)",
        ValueRule::Qualifiers(rule) => qualifier_text(rule),
        ValueRule::UnmappedAnyPolicy => "anyPolicy is in a mapping (RFC 5280 4.2.1.5)",
        ValueRule::Names(rule) => name_text(rule),
        ValueRule::DirectoryName => "no name is a directoryName (RFC 5280 5.3.3)",
        ValueRule::NotEmpty => "it is an empty sequence (RFC 5280 4.2.1.10, 4.2.1.11, 5.2.5)",
        ValueRule::Subtrees(rule) => subtree_text(rule),
        ValueRule::Points(rule) => point_text(rule),
        ValueRule::PointForAllReasons => "no point is for all reasons (RFC 5280 4.2.1.13)",
        ValueRule::IssuingPoint(rule) => issuing_point_text(rule),
        ValueRule::CaIssuers => "a method isn't id-ad-caIssuers (RFC 5280 5.2.7)",
        ValueRule::Locations(rule) => name_text(rule),
        ValueRule::ShortNumber => "the number has more than 20 octets (RFC 5280 5.2.3)",
        ValueRule::NaturalNumber => "the number is negative (RFC 5280 4.2.1.14, 5.2.3, 5.2.4)",
        ValueRule::WholeSeconds => "the date has a fraction of a second (RFC 5280 5.3.2)",
        ValueRule::SpecifiedReason => "the reason is unspecified (RFC 5280 5.3.1)",
        ValueRule::DerValues => "it isn't in DER (X.690 10)",
    }
}

fn issuing_point_text(rule: IssuingPointRule) -> &'static str {
    match rule {
        IssuingPointRule::OneKind => "it contains only certificates of two kinds (RFC 5280 5.2.5)",
        IssuingPointRule::NoAttributeCertificates =>
            "it contains only attribute certificates (RFC 5280 5.2.5)",
        IssuingPointRule::FullNames(rule) => name_text(rule),
    }
}

/// The text of a broken rule of a name, with its section.
pub fn name_text(rule: NameRule) -> &'static str {
    match rule {
        NameRule::NotEmpty => "a name is empty (RFC 5280 4.2.1.6)",
        NameRule::AddressOctets => "an address hasn't 4 or 16 octets (RFC 5280 4.2.1.6)",
        NameRule::NotBlank => "a dNSName is a space (RFC 5280 4.2.1.6)",
        NameRule::Scheme => "a resource identifier has no scheme (RFC 5280 4.2.1.6)",
        NameRule::Host => "a resource identifier has no host (RFC 5280 4.2.1.6)",
        NameRule::Mailbox => "an rfc822Name is no mailbox (RFC 5280 4.2.1.6)",
        NameRule::PreferredName =>
            "a dNSName isn't in the preferred name syntax (RFC 5280 4.2.1.6)",
        NameRule::InternationalMailbox =>
            "an SmtpUTF8Mailbox is no mailbox beyond ASCII (RFC 9598 3)",
        NameRule::LdapEntry => {
            "an identifier of LDAP lacks an entry or attributes (RFC 5280 4.2.1.13, 4.2.2)"
        }
        NameRule::LdapAttribute =>
            "an identifier of LDAP has several attributes (RFC 5280 4.2.1.13)",
        NameRule::PartyName => "an ediPartyName has no partyName, or isn't one (RFC 5280 4.2.1.6)",
        NameRule::OrderedAttributes =>
            "attributes of a directoryName are out of order (X.690 11.6)",
        NameRule::TypedAttributes =>
            "an attribute of a directoryName isn't of its type (RFC 5280 A.1)",
    }
}

/// The text of a broken rule of a subtree, with its section.
pub fn subtree_text(rule: SubtreeRule) -> &'static str {
    match rule {
        SubtreeRule::NoDistance => "a subtree has a minimum or a maximum (RFC 5280 4.2.1.10)",
        SubtreeRule::NetworkOctets => "an address hasn't 8 or 32 octets (RFC 5280 4.2.1.10)",
        SubtreeRule::NetworkMask => "a mask of an address has a gap (RFC 5280 4.2.1.10)",
        SubtreeRule::HostOrDomain =>
            "a resource identifier is neither a host nor a domain (RFC 5280 4.2.1.10)",
        SubtreeRule::MailboxOrHost =>
            "an rfc822Name is no mailbox, host or domain (RFC 5280 4.2.1.10)",
        SubtreeRule::DomainName => "a dNSName isn't a host name (RFC 5280 4.2.1.10)",
        SubtreeRule::Base(rule) => name_text(rule),
        SubtreeRule::UsualName => "a subtree of an unusual kind of name (RFC 5280 4.2.1.10)",
    }
}

/// The text of a broken rule of a point, with its section.
pub fn point_text(rule: PointRule) -> &'static str {
    match rule {
        PointRule::Named => "a point has neither a name nor an issuer (RFC 5280 4.2.1.13)",
        PointRule::FullName => "the name of a point is relative (RFC 5280 4.2.1.13)",
        PointRule::NameAlone => "a point has reasons or an issuer (RFC 5280 5.2.6)",
        PointRule::NamedIssuers => "a cRLIssuer isn't a directoryName (RFC 5280 4.2.1.13)",
        PointRule::RelativeToOneIssuer =>
            "a name is relative to more than one cRLIssuer (RFC 5280 4.2.1.13)",
        PointRule::Issuers(rule) => name_text(rule),
        PointRule::FullNames(rule) => name_text(rule),
    }
}

/// The text of a broken rule of a qualifier, with its section.
pub fn qualifier_text(rule: QualifierRule) -> &'static str {
    match rule {
        QualifierRule::PointerOfType => "a CPS pointer isn't an IA5String (RFC 5280 4.2.1.4)",
        QualifierRule::NoticeOfType => "a user notice isn't of its type (RFC 5280 4.2.1.4)",
        QualifierRule::Notice(rule) => notice_text(rule),
    }
}

fn notice_text(rule: NoticeRule) -> &'static str {
    match rule {
        NoticeRule::TextSize =>
            "a text of a user notice hasn't 1 to 200 characters (RFC 5280 4.2.1.4)",
        NoticeRule::NoIa5Text => "an explicitText is an IA5String (RFC 6818 3)",
        NoticeRule::Utf8Text => "an explicitText isn't a UTF8String (RFC 6818 3)",
        NoticeRule::NoReference => "a user notice has a noticeRef (RFC 5280 4.2.1.4)",
    }
}
