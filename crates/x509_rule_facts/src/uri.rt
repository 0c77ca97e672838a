//! The syntax of URIs: the host (RFC 3986 3.2, for RFC 5280 4.2.1.6), and the entry in an LDAP URL (RFC 4516 2, for
//! 4.2.1.13, 4.2.2.1 and 4.2.2.2).
ghost use Rattle.std.specs.Prelude.{◌≡◌, ◌≢◌, ◌↔◌, ◌≤◌, ◌==◌, ◌∷◌, IsTrue, List, MatchOption, length, ℕ};
ghost use Rattle.std.specs.Char.{is_ascii_digit};
ghost use Rattle.std.specs.List.{after_first, before_first, list_all, position_or_len};
ghost use Rattle.x509_rule_facts.specs.HostNames.{is_host_name};
ghost use Rattle.x509_rule_facts.specs.Uris.{ClosesLiteral, HasNoHost, IsEntry, IsHostAndPort, IsHostless, IsLdap};
ghost use Rattle.x509_rule_facts.specs.Uris.{IsLiteralAndPort, IsNameAndPort, IsPort, IsRootedName, NamesEntry};
ghost use Rattle.x509_rule_facts.specs.Uris.{NamesSeveralAttributes, attributes_of, dn_of, ends_authority};
ghost use Rattle.x509_rule_facts.specs.Uris.{without_user};

use crate::host_name::is_host_name;
use crate::mailbox::are_literal_characters;

/// The scheme of LDAP.
const LDAP: &[u8] = b"ldap";

/// Returns whether the URI has an authority without a host: neither a name nor an address.
pub fn has_no_host(text: &[u8]) -> bool
    ensures { IsTrue result ↔ HasNoHost text.now }
{
    match behind_slashes(behind(text, b':')) {
        Some(rest) => is_hostless(rest),
        None => false,
    }
}

/// Returns whether the authority at the start of the text has no host.
fn is_hostless(text: &[u8]) -> bool
    ensures { IsTrue result ↔ IsHostless text.now }
{
    !is_host_and_port(without_user(before_path(text)))
}

/// Returns whether the text is a host, perhaps with a port.
fn is_host_and_port(text: &[u8]) -> bool
    ensures { IsTrue result ↔ IsHostAndPort text.now }
{
    is_literal_and_port(text) || is_name_and_port(text)
}

/// Returns whether the text is an address literal, perhaps with a port.
fn is_literal_and_port(text: &[u8]) -> bool
    ensures { IsTrue result ↔ IsLiteralAndPort text.now }
{
    match behind_bracket(text) {
        Some(rest) => closes_literal(rest),
        None => false,
    }
}

/// Returns whether the text is characters of an address, a bracket, and perhaps a port. The address isn't checked.
fn closes_literal(text: &[u8]) -> bool
    ensures { IsTrue result ↔ ClosesLiteral text.now }
{
    let inside = before(text, b']');
    text.contains(&b']')
        && !inside.is_empty()
        && are_literal_characters(inside)
        && is_port(behind(text, b']'))
}

/// Returns whether the text is a colon and a port, or empty.
fn is_port(text: &[u8]) -> bool
    ensures { IsTrue result ↔ IsPort text.now }
{
    match text {
        [b':', port @ ..] => are_digits(port),
        _ => text.is_empty(),
    }
}

/// Returns whether the text is a host name, perhaps with a port.
fn is_name_and_port(text: &[u8]) -> bool
    ensures { IsTrue result ↔ IsNameAndPort text.now }
{
    let name = before(text, b':');
    (is_host_name(name) || is_rooted_name(name)) && are_digits(behind(text, b':'))
}

/// Returns whether the text is a host name and a dot.
fn is_rooted_name(text: &[u8]) -> bool
    ensures { IsTrue result ↔ IsRootedName text.now }
{
    match text.split_last() {
        Some((last, name)) => is_rooted_by(*last, name),
        None => false,
    }
}

fn is_rooted_by(last: u8, name: &[u8]) -> bool
    ensures { IsTrue result ↔ ((last ≡ 46) × IsTrue (is_host_name name.now)) }
{
    last == b'.' && is_host_name(name)
}

fn are_digits(text: &[u8]) -> bool
    ensures { result ≡ list_all is_ascii_digit text.now }
{
    text.iter().all(|octet| octet.is_ascii_digit())
}

/// The authority without its user part.
fn without_user(authority: &[u8]) -> &[u8]
    ensures { result.now ≡ without_user authority.now }
{
    if authority.contains(&b'@') {
        behind(authority, b'@')
    } else {
        authority
    }
}

/// Returns whether the scheme is ldap, in letters of any case.
pub fn is_ldap(text: &[u8]) -> bool
    ensures { IsTrue result ↔ IsLdap text.now }
{
    text.contains(&b':') && before(text, b':').eq_ignore_ascii_case(LDAP)
}

/// Returns whether the LDAP URL names an entry and attributes.
pub fn names_entry(text: &[u8]) -> bool
    ensures { IsTrue result ↔ NamesEntry text.now }
{
    match behind_slashes(behind(text, b':')) {
        Some(rest) => is_entry(rest),
        None => false,
    }
}

/// Returns whether the LDAP URL names several attributes.
pub fn names_several_attributes(text: &[u8]) -> bool
    ensures { IsTrue result ↔ NamesSeveralAttributes text.now }
{
    match behind_slashes(behind(text, b':')) {
        Some(rest) => attributes_of(rest).contains(&b','),
        None => false,
    }
}

fn is_entry(text: &[u8]) -> bool
    ensures { IsTrue result ↔ IsEntry text.now }
{
    !dn_of(text).is_empty() && !attributes_of(text).is_empty()
}

/// The name of the entry, between "/" and "?".
fn dn_of(text: &[u8]) -> &[u8]
    ensures { result.now ≡ dn_of text.now }
{
    before(behind(text, b'/'), b'?')
}

/// The attributes, between "?" and the next "?".
fn attributes_of(text: &[u8]) -> &[u8]
    ensures { result.now ≡ attributes_of text.now }
{
    before(behind(behind(text, b'/'), b'?'), b'?')
}

/// The authority, which ends before the path, the query or the fragment.
fn before_path(text: &[u8]) -> &[u8]
    ensures { result.now ≡ before_first ends_authority text.now }
{
    &text[..authority_end(text)]
}

/// The offset of the end of an authority.
fn authority_end(text: &[u8]) -> usize
    ensures first { result ≡ position_or_len ends_authority text.now }
    ensures within { result ≤ length text.now }
{
    text.iter()
        .position(|octet| ends_authority(*octet))
        .unwrap_or(text.len())
}

/// Returns whether the octet is "/", "?" or "#".
fn ends_authority(octet: u8) -> bool
    ensures { result ≡ ends_authority octet }
{
    octet == b'/' || octet == b'?' || octet == b'#'
}

/// Returns the text after two slashes, if it begins with them.
fn behind_slashes(text: &[u8]) -> Option<&[u8]>
    ensures { MatchOption result ((x : List ℕ) → text.now ≢ 47 ∷ 47 ∷ x) (λ x. text.now ≡ 47 ∷ 47 ∷ x.now) }
{
    match text {
        [b'/', b'/', rest @ ..] => Some(rest),
        _ => None,
    }
}

/// Returns the text after "[", if it begins with one.
fn behind_bracket(text: &[u8]) -> Option<&[u8]>
    ensures { MatchOption result ((x : List ℕ) → text.now ≢ 91 ∷ x) (λ x. text.now ≡ 91 ∷ x.now) }
{
    match text {
        [b'[', rest @ ..] => Some(rest),
        _ => None,
    }
}

/// The text before the first such octet, or all of it if there is none.
fn before(text: &[u8], octet: u8) -> &[u8]
    ensures { result.now ≡ before_first (λ b. b == octet) text.now }
{
    &text[..offset_of(text, octet)]
}

/// The text after the first such octet, or nothing if there is none.
fn behind(text: &[u8], octet: u8) -> &[u8]
    ensures { result.now ≡ after_first (λ b. b == octet) text.now }
{
    let offset = offset_of(text, octet);
    if offset == text.len() {
        return &[];
    }
    &text[offset + 1..]
}

/// The offset of the first such octet, or the length if there is none.
fn offset_of(text: &[u8], octet: u8) -> usize
    ensures first { result ≡ position_or_len (λ b. b == octet) text.now }
    ensures within { result ≤ length text.now }
{
    text.iter()
        .position(|it| *it == octet)
        .unwrap_or(text.len())
}
