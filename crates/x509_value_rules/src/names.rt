//! Rules of general names (RFC 5280 4.2.1.6).
ghost use Rattle.std.specs.Prelude.{◌≡◌, ◌≢◌, ◌↔◌, [], nat_le, IsTrue};
ghost use Rattle.std.specs.List.{list_any};
ghost use Rattle.std.specs.Char.{is_ascii_alphabetic};
ghost use Rattle.std.specs.Option.{option_map};
ghost use Rattle.der_cursor.specs.Elements.{element_of};
ghost use Rattle.der_extensions.specs.GeneralNames.{GeneralName as AnyName, name_of};
ghost use Rattle.der_extensions.specs.Lists.{list_octets};
ghost use Rattle.x509_rule_facts.specs.Lists.{Among};
ghost use Rattle.x509_value_rules.specs.Names.{BreaksName, HasScheme, IsBlankName, IsDisorderedName, IsEmptyName};
ghost use Rattle.x509_value_rules.specs.Names.{BeginsWithMark, IsInternationalMailbox, IsInternationalText};
ghost use Rattle.x509_value_rules.specs.Names.{IsMailboxBeyondAscii, IsNoInternationalMailbox, IsNoMailbox};
ghost use Rattle.x509_value_rules.specs.Names.{IsOddAddress, IsHostlessName, IsMistypedName, IsOtherHost};
ghost use Rattle.x509_value_rules.specs.Names.{IsRelativeName, SchemeFollows, SomeNameBreaks, is_scheme_character};
ghost use Rattle.x509_value_rules.specs.Names.{IsBadName};

use crate::directory::{has_several_attributes, is_odd_entry};
use crate::party_name::is_no_party;
use der_base::any::Any;
use der_base::header::{Class, Tag};
use der_extensions::{GeneralName, GeneralNames};
use x509::has_descent;
use x509_rule_facts::attributes::has_mistyped;
use x509_rule_facts::host_name::is_preferred_name;
use x509_rule_facts::identifier::has_octets;
use x509_rule_facts::mailbox::{LocalCharacters, is_mailbox};
use x509_rule_facts::uri::has_no_host;

/// A rule of RFC 5280 about a general name.
#[derive(Clone, Copy, Debug, PartialEq)]
pub enum NameRule {
    /// An rfc822Name, dNSName, uniformResourceIdentifier, iPAddress or directoryName isn't empty (4.2.1.6,
    /// MUST NOT).
    NotEmpty,
    /// An iPAddress has 4 or 16 octets (4.2.1.6, MUST).
    AddressOctets,
    /// A dNSName isn't " " (4.2.1.6, MUST NOT).
    NotBlank,
    /// A uniformResourceIdentifier begins with a scheme, a colon and at least one octet more (4.2.1.6, RFC 3986 3.1,
    /// MUST).
    Scheme,
    /// A uniformResourceIdentifier with an authority has a host in it: a name or an address (4.2.1.6, RFC 3986 3.2,
    /// MUST). The name isn't looked up.
    Host,
    /// An rfc822Name is a mailbox, as "a@a.example" (4.2.1.6, RFC 5321 4.1.2, MUST).
    Mailbox,
    /// A dNSName is in the preferred name syntax, with at most 253 characters (4.2.1.6, RFC 1034 3.1 and 3.5, RFC 1123
    /// 2.1, MUST). A leading "*." is allowed, as 4.2.1.6 says.
    PreferredName,
    /// The attributes of each relative name of a directoryName ascend, as DER requires of a SET OF (4.2.1.6, 4.1, X.690
    /// 11.6).
    OrderedAttributes,
    /// The attributes of a directoryName that have a type in A.1 have values of it (4.2.1.6, 4.1.2.4).
    TypedAttributes,
    /// An otherName that is an SmtpUTF8Mailbox is a UTF8String with a mailbox. Its local part has a character beyond
    /// ASCII, and its domain has none (RFC 9598 3, MUST). It doesn't begin with a byte order mark.
    InternationalMailbox,
    /// A uniformResourceIdentifier with the scheme ldap names an entry and attributes (4.2.1.13, 4.2.2.1, 4.2.2.2, RFC
    /// 4516 2, MUST). Their syntax isn't checked.
    LdapEntry,
    /// A uniformResourceIdentifier with the scheme ldap names one attribute at most (4.2.1.13, MUST).
    LdapAttribute,
    /// An ediPartyName has a partyName, perhaps after a nameAssigner, and nothing else. Each is a DirectoryString with
    /// characters (4.2.1.6, A.1).
    PartyName,
}

/// id-on-SmtpUTF8Mailbox: 1.3.6.1.5.5.7.8.9.
const SMTP_UTF8_MAILBOX: &[u8] = b"\x2b\x06\x01\x05\x05\x07\x08\x09";

/// A dNSName that stands for no name.
const BLANK: &[u8] = b" ";

/// Returns whether one of the names breaks the rule.
pub fn has_broken_name(rule: NameRule, names: &GeneralNames<'_>) -> bool
    ensures { IsTrue result ↔ Among AnyName (BreaksName rule) names.now.octets.now }
{
    for name in names.iter() {
        if breaks_name(rule, &name) {
            return true;
        }
    }
    false
}

/// Returns whether there are names, and one breaks the rule.
pub fn is_one_name_broken(rule: NameRule, names: &Option<GeneralNames<'_>>) -> bool
    ensures { IsTrue result ↔ SomeNameBreaks rule (option_map list_octets names.now) }
{
    match names {
        Some(names) => has_broken_name(rule, names),
        None => false,
    }
}

/// Returns whether one of the names breaks any rule.
pub fn has_bad_name(names: &GeneralNames<'_>) -> bool
    ensures { IsTrue result ↔ Among AnyName IsBadName names.now.octets.now }
{
    for name in names.iter() {
        if is_bad_name(&name) {
            return true;
        }
    }
    false
}

/// Returns whether the name breaks any rule.
pub fn is_bad_name(name: &GeneralName<'_>) -> bool
    ensures { IsTrue result ↔ IsBadName (name_of name.now) }
{
    is_empty_name(name)
        || is_odd_address(name)
        || is_blank_name(name)
        || is_relative_name(name)
        || is_hostless_name(name)
        || is_no_mailbox(name)
        || is_other_host(name)
        || is_no_international_mailbox(name)
        || is_disordered_name(name)
        || is_mistyped_name(name)
        || is_odd_entry(name)
        || has_several_attributes(name)
        || is_no_party(name)
}

/// Returns whether the name breaks the rule.
pub fn breaks_name(rule: NameRule, name: &GeneralName<'_>) -> bool
    ensures { IsTrue result ↔ BreaksName rule (name_of name.now) }
{
    match rule {
        NameRule::NotEmpty => is_empty_name(name),
        NameRule::AddressOctets => is_odd_address(name),
        NameRule::NotBlank => is_blank_name(name),
        NameRule::Scheme => is_relative_name(name),
        NameRule::Host => is_hostless_name(name),
        NameRule::Mailbox => is_no_mailbox(name),
        NameRule::PreferredName => is_other_host(name),
        NameRule::InternationalMailbox => is_no_international_mailbox(name),
        NameRule::OrderedAttributes => is_disordered_name(name),
        NameRule::TypedAttributes => is_mistyped_name(name),
        NameRule::LdapEntry => is_odd_entry(name),
        NameRule::LdapAttribute => has_several_attributes(name),
        NameRule::PartyName => is_no_party(name),
    }
}

/// Returns whether it is an rfc822Name that isn't a mailbox.
fn is_no_mailbox(name: &GeneralName<'_>) -> bool
    ensures { IsTrue result ↔ IsNoMailbox (name_of name.now) }
{
    match name {
        GeneralName::Rfc822Name(text) => !is_mailbox(LocalCharacters::Ascii, text),
        _ => false,
    }
}

/// Returns whether it is a dNSName that isn't in the preferred name syntax.
fn is_other_host(name: &GeneralName<'_>) -> bool
    ensures { IsTrue result ↔ IsOtherHost (name_of name.now) }
{
    match name {
        GeneralName::DnsName(text) => !is_preferred_name(text.as_bytes()),
        _ => false,
    }
}

/// Returns whether it is a directoryName with attributes out of order.
fn is_disordered_name(name: &GeneralName<'_>) -> bool
    ensures { IsTrue result ↔ IsDisorderedName (name_of name.now) }
{
    match name {
        GeneralName::DirectoryName(name) => has_descent(*name),
        _ => false,
    }
}

/// Returns whether it is a directoryName with an attribute whose value has another type.
fn is_mistyped_name(name: &GeneralName<'_>) -> bool
    ensures { IsTrue result ↔ IsMistypedName (name_of name.now) }
{
    match name {
        GeneralName::DirectoryName(name) => has_mistyped(*name),
        _ => false,
    }
}

/// Returns whether it is an SmtpUTF8Mailbox that breaks RFC 9598 3.
fn is_no_international_mailbox(name: &GeneralName<'_>) -> bool
    ensures { IsTrue result ↔ IsNoInternationalMailbox (name_of name.now) }
{
    match name {
        GeneralName::OtherName(other) => {
            has_octets(&other.type_id, SMTP_UTF8_MAILBOX) && !is_international_mailbox(&other.value)
        }
        _ => false,
    }
}

/// Returns whether the value is a UTF8String with an SmtpUTF8Mailbox.
fn is_international_mailbox(value: &Any<'_>) -> bool
    ensures { IsTrue result ↔ IsInternationalMailbox (element_of value.now) }
{
    value.class() == Class::Universal
        && value.header.is_primitive()
        && value.tag() == Tag::Utf8String
        && is_international_text(value.bytes)
}

fn is_international_text(octets: &[u8]) -> bool
    ensures { IsTrue result ↔ IsInternationalText octets.now }
{
    match str::from_utf8(octets) {
        Ok(text) => is_local_beyond_ascii(text),
        Err(_) => false,
    }
}

/// Returns whether the text is a mailbox with characters beyond ASCII and no byte order mark at the start.
fn is_local_beyond_ascii(text: &str) -> bool
    ensures { IsTrue result ↔ IsMailboxBeyondAscii text.now }
{
    is_mailbox(LocalCharacters::Utf8, text)
        && has_beyond_ascii(text.as_bytes())
        && !begins_with_mark(text.as_bytes())
}

/// Returns whether an octet is beyond ASCII.
fn has_beyond_ascii(octets: &[u8]) -> bool
    ensures { result ≡ list_any (λ b. nat_le 0x80 b) octets.now }
{
    octets.iter().any(|octet| *octet >= 0x80)
}

fn begins_with_mark(octets: &[u8]) -> bool
    ensures { IsTrue result ↔ BeginsWithMark octets.now }
{
    match octets {
        [0xef, 0xbb, 0xbf, ..] => true,
        _ => false,
    }
}

fn is_empty_name(name: &GeneralName<'_>) -> bool
    ensures { IsTrue result ↔ IsEmptyName (name_of name.now) }
{
    match name {
        GeneralName::Rfc822Name(text) => text.is_empty(),
        GeneralName::DnsName(text) => text.is_empty(),
        GeneralName::UniformResourceIdentifier(text) => text.is_empty(),
        GeneralName::IpAddress(octets) => octets.is_empty(),
        GeneralName::DirectoryName(name) => name.octets.is_empty(),
        GeneralName::OtherName(_) => false,
        GeneralName::X400Address(_) => false,
        GeneralName::EdiPartyName(_) => false,
        GeneralName::RegisteredId(_) => false,
    }
}

/// Returns whether it is an iPAddress of neither IPv4 nor IPv6.
fn is_odd_address(name: &GeneralName<'_>) -> bool
    ensures { IsTrue result ↔ IsOddAddress (name_of name.now) }
{
    match name {
        GeneralName::IpAddress(octets) => octets.len() != 4 && octets.len() != 16,
        _ => false,
    }
}

/// Returns whether it is the dNSName " ".
fn is_blank_name(name: &GeneralName<'_>) -> bool
    ensures { IsTrue result ↔ IsBlankName (name_of name.now) }
{
    match name {
        GeneralName::DnsName(text) => text.as_bytes() == BLANK,
        _ => false,
    }
}

/// Returns whether it is a uniformResourceIdentifier without a scheme, or with nothing after it.
fn is_relative_name(name: &GeneralName<'_>) -> bool
    ensures { IsTrue result ↔ IsRelativeName (name_of name.now) }
{
    match name {
        GeneralName::UniformResourceIdentifier(text) => !has_scheme(text.as_bytes()),
        _ => false,
    }
}

/// Returns whether it is a uniformResourceIdentifier with an authority without a host.
fn is_hostless_name(name: &GeneralName<'_>) -> bool
    ensures { IsTrue result ↔ IsHostlessName (name_of name.now) }
{
    match name {
        GeneralName::UniformResourceIdentifier(text) => has_no_host(text.as_bytes()),
        _ => false,
    }
}

/// Returns whether the text begins with a scheme, a colon and at least one octet more.
fn has_scheme(text: &[u8]) -> bool
    ensures { IsTrue result ↔ HasScheme text.now }
{
    match text.split_first() {
        Some((first, rest)) => is_begun(*first, rest),
        None => false,
    }
}

fn is_begun(first: u8, rest: &[u8]) -> bool
    ensures { IsTrue result ↔ (IsTrue (is_ascii_alphabetic first) × SchemeFollows rest.now) }
{
    first.is_ascii_alphabetic() && scheme_follows(rest)
}

/// Returns whether the text is the rest of a scheme, a colon and at least one octet more.
fn scheme_follows(text: &[u8]) -> bool
    ensures { IsTrue result ↔ SchemeFollows text.now }
{
    let mut left = text;
    while let Some((first, rest)) = left.split_first() {
        if !is_scheme_character(*first) {
            return ends_scheme(*first, rest);
        }
        left = rest;
    }
    false
}

/// Returns whether the octet is ":" with at least one octet after it.
fn ends_scheme(first: u8, rest: &[u8]) -> bool
    ensures { IsTrue result ↔ ((first ≡ 58) × (rest.now ≢ [])) }
{
    first == b':' && !rest.is_empty()
}

/// Returns whether the octet is a letter, a digit, "+", "-" or ".".
fn is_scheme_character(octet: u8) -> bool
    ensures { result ≡ is_scheme_character octet }
{
    octet.is_ascii_alphanumeric() || octet == b'+' || octet == b'-' || octet == b'.'
}
