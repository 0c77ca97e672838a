//! Rules of the subtrees of name constraints (RFC 5280 4.2.1.10).
ghost use Rattle.std.specs.Prelude.{◌↔◌, IsTrue};
ghost use Rattle.der_cursor.specs.Formats.{Required};
ghost use Rattle.der_extensions.specs.Extensions.{GeneralSubtree as SubtreeFormat, name_constraints_of, subtree_of};
ghost use Rattle.der_extensions.specs.GeneralNames.{name_of};
ghost use Rattle.der_extensions.specs.Lists.{list_octets};
ghost use Rattle.std.specs.Option.{option_map};
ghost use Rattle.x509_rule_facts.specs.Lists.{Among};
ghost use Rattle.x509_value_rules.specs.Subtrees.{BreaksSubtree, HasDistance, HasBrokenSubtree, HasOddMask};
ghost use Rattle.x509_value_rules.specs.Subtrees.{IsOddDomain, IsOddHost, IsOddMailbox, IsOddNetwork, IsUnusual};
ghost use Rattle.x509_value_rules.specs.Subtrees.{SomeBroken};

use crate::names::{NameRule, breaks_name};
use der_extensions::{GeneralName, GeneralSubtree, NameConstraints, SequenceOf};
use x509_rule_facts::constraint::{ends_in_mask, is_host_or_domain};
use x509_rule_facts::host_name::is_host_name;
use x509_rule_facts::mailbox::{LocalCharacters, is_mailbox};

/// A rule of RFC 5280 about a subtree of name constraints.
#[derive(Clone, Copy, Debug, PartialEq)]
pub enum SubtreeRule {
    /// The minimum is 0, and there is no maximum (4.2.1.10, MUST).
    NoDistance,
    /// An iPAddress is an address of IPv4 or IPv6 and a mask: it has 8 or 32 octets (4.2.1.10, MUST).
    NetworkOctets,
    /// The mask of an iPAddress, its second half, is bits 1 and then bits 0, as for an address range (4.2.1.10, RFC
    /// 4632 3.1, MUST).
    NetworkMask,
    /// A uniformResourceIdentifier is a host name, or "." and a domain name (4.2.1.10, MUST).
    HostOrDomain,
    /// An rfc822Name is a mailbox, a host name, or "." and a domain name (4.2.1.10).
    MailboxOrHost,
    /// A dNSName is a host name, or empty, which matches all names (4.2.1.10).
    DomainName,
    /// Its base keeps the rule of names (4.2.1.10, 4.2.1.6).
    Base(NameRule),
    /// Its base isn't an x400Address, an ediPartyName or a registeredID (4.2.1.10, SHOULD NOT).
    UsualName,
}

/// Returns whether a permitted or excluded subtree breaks the rule.
pub fn has_broken_subtree(rule: SubtreeRule, constraints: &NameConstraints<'_>) -> bool
    ensures { IsTrue result ↔ HasBrokenSubtree rule (name_constraints_of constraints.now) }
{
    has_broken(rule, &constraints.permitted_subtrees)
        || has_broken(rule, &constraints.excluded_subtrees)
}

/// Returns whether there are subtrees, and one breaks the rule.
fn has_broken<'a>(rule: SubtreeRule, subtrees: &Option<SequenceOf<'a, GeneralSubtree<'a>>>) -> bool
    ensures { IsTrue result ↔ SomeBroken rule (option_map list_octets subtrees.now) }
{
    match subtrees {
        Some(subtrees) => is_one_broken(rule, subtrees),
        None => false,
    }
}

/// Returns whether one of the subtrees breaks the rule.
fn is_one_broken<'a>(rule: SubtreeRule, subtrees: &SequenceOf<'a, GeneralSubtree<'a>>) -> bool
    ensures { IsTrue result ↔ Among (Required SubtreeFormat) (BreaksSubtree rule) subtrees.now.octets.now }
{
    for subtree in subtrees.iter() {
        if breaks_subtree(rule, &subtree) {
            return true;
        }
    }
    false
}

/// Returns whether the subtree breaks the rule.
fn breaks_subtree(rule: SubtreeRule, subtree: &GeneralSubtree<'_>) -> bool
    ensures { IsTrue result ↔ BreaksSubtree rule (subtree_of subtree.now) }
{
    match rule {
        SubtreeRule::NoDistance => has_distance(subtree),
        SubtreeRule::NetworkOctets => is_odd_network(&subtree.base),
        SubtreeRule::NetworkMask => has_odd_mask(&subtree.base),
        SubtreeRule::HostOrDomain => is_odd_host(&subtree.base),
        SubtreeRule::MailboxOrHost => is_odd_mailbox(&subtree.base),
        SubtreeRule::DomainName => is_odd_domain(&subtree.base),
        SubtreeRule::Base(rule) => breaks_name(rule, &subtree.base),
        SubtreeRule::UsualName => is_unusual(&subtree.base),
    }
}

/// Returns whether the minimum isn't 0, or there is a maximum.
fn has_distance(subtree: &GeneralSubtree<'_>) -> bool
    ensures { IsTrue result ↔ HasDistance (subtree_of subtree.now) }
{
    subtree.minimum != 0 || subtree.maximum.is_some()
}

/// Returns whether it is an iPAddress that isn't an address with a mask.
fn is_odd_network(name: &GeneralName<'_>) -> bool
    ensures { IsTrue result ↔ IsOddNetwork (name_of name.now) }
{
    match name {
        GeneralName::IpAddress(octets) => octets.len() != 8 && octets.len() != 32,
        _ => false,
    }
}

/// Returns whether it is an iPAddress whose second half isn't a mask.
fn has_odd_mask(name: &GeneralName<'_>) -> bool
    ensures { IsTrue result ↔ HasOddMask (name_of name.now) }
{
    match name {
        GeneralName::IpAddress(octets) => !ends_in_mask(octets),
        _ => false,
    }
}

/// Returns whether it is a uniformResourceIdentifier that isn't a host name or "." and a domain name.
fn is_odd_host(name: &GeneralName<'_>) -> bool
    ensures { IsTrue result ↔ IsOddHost (name_of name.now) }
{
    match name {
        GeneralName::UniformResourceIdentifier(text) => !is_host_or_domain(text.as_bytes()),
        _ => false,
    }
}

/// Returns whether it is an rfc822Name that isn't a mailbox, a host name or "." and a domain name.
fn is_odd_mailbox(name: &GeneralName<'_>) -> bool
    ensures { IsTrue result ↔ IsOddMailbox (name_of name.now) }
{
    match name {
        GeneralName::Rfc822Name(text) => {
            !is_mailbox(LocalCharacters::Ascii, text) && !is_host_or_domain(text.as_bytes())
        }
        _ => false,
    }
}

/// Returns whether it is a dNSName that is neither empty nor a host name.
fn is_odd_domain(name: &GeneralName<'_>) -> bool
    ensures { IsTrue result ↔ IsOddDomain (name_of name.now) }
{
    match name {
        GeneralName::DnsName(text) => !text.is_empty() && !is_host_name(text.as_bytes()),
        _ => false,
    }
}

/// Returns whether it is an x400Address, an ediPartyName or a registeredID.
fn is_unusual(name: &GeneralName<'_>) -> bool
    ensures { IsTrue result ↔ IsUnusual (name_of name.now) }
{
    match name {
        GeneralName::X400Address(_) => true,
        GeneralName::EdiPartyName(_) => true,
        GeneralName::RegisteredId(_) => true,
        _ => false,
    }
}
