//! The syntax of mailboxes (RFC 5321 4.1.2, for RFC 5280 4.2.1.6; RFC 6531 3.3, for RFC 9598 3).
ghost use Rattle.std.specs.Prelude.{◌≡◌, ◌≢◌, ◌↔◌, ◌<◌, [], IsTrue, List, MatchOption, length, ℕ};
ghost use Rattle.std.specs.List.{list_all};
ghost use Rattle.x509_rule_facts.specs.Mailboxes.{Closes, IsAddressLiteral, IsDomain, IsLiteralContent, IsMailbox};
ghost use Rattle.x509_rule_facts.specs.Mailboxes.{IsPlainMailbox, IsQuoted, IsQuotedMailbox, QuotedFollows, is_atext};
ghost use Rattle.x509_rule_facts.specs.Mailboxes.{is_atom, is_dot_string, is_literal_character, is_printable};
ghost use Rattle.x509_rule_facts.specs.Mailboxes.{is_qtext, is_beyond_ascii};

use crate::host_name::is_host_name;

/// The characters of the local part of a mailbox.
#[derive(Clone, Copy, Debug, PartialEq)]
pub enum LocalCharacters {
    /// ASCII (RFC 5321 4.1.2).
    Ascii,
    /// All of Unicode, in UTF-8 (RFC 6531 3.3).
    Utf8,
}

/// The signs that an atom may have, beside letters and digits (RFC 5322 3.2.3).
const ATOM_SIGNS: &[u8] = b"!#$%&'*+-/=?^_`{|}~";

/// Returns whether the text is a mailbox.
pub fn is_mailbox(characters: LocalCharacters, text: &str) -> bool
    ensures { IsTrue result ↔ IsMailbox characters text.now }
{
    is_plain_mailbox(characters, text) || is_quoted_mailbox(characters, text.as_bytes())
}

/// Returns whether the text is atoms with dots between, "@" and a domain.
fn is_plain_mailbox(characters: LocalCharacters, text: &str) -> bool
    ensures { IsTrue result ↔ IsPlainMailbox characters text.now }
{
    match text.split_once('@') {
        Some((local, domain)) => are_plain_parts(characters, local, domain),
        None => false,
    }
}

/// Returns whether the text before "@" is atoms with dots between, and the text after it a domain.
fn are_plain_parts(characters: LocalCharacters, local: &str, domain: &str) -> bool
    ensures { IsTrue result ↔ (IsTrue (is_dot_string characters local.now) × IsDomain domain.now) }
{
    is_dot_string(characters, local.as_bytes()) && is_domain(domain.as_bytes())
}

/// Returns whether each part between dots is an atom.
fn is_dot_string(characters: LocalCharacters, text: &[u8]) -> bool
    ensures { result ≡ is_dot_string characters text.now }
{
    text.split(|octet| *octet == b'.')
        .all(|atom| is_atom(characters, atom))
}

/// Returns whether there are octets, and all may be in an atom.
fn is_atom(characters: LocalCharacters, text: &[u8]) -> bool
    ensures { result ≡ is_atom characters text.now }
{
    !text.is_empty() && are_atext(characters, text)
}

/// Returns whether all may be in an atom.
fn are_atext(characters: LocalCharacters, text: &[u8]) -> bool
    ensures { result ≡ list_all (is_atext characters) text.now }
{
    text.iter().all(|octet| is_atext(characters, *octet))
}

/// Returns whether the octet may be in an atom.
fn is_atext(characters: LocalCharacters, octet: u8) -> bool
    ensures { result ≡ is_atext characters octet }
{
    octet.is_ascii_alphanumeric()
        || ATOM_SIGNS.contains(&octet)
        || is_beyond_ascii(characters, octet)
}

/// Returns whether the octet is beyond ASCII, and the local part may have it.
fn is_beyond_ascii(characters: LocalCharacters, octet: u8) -> bool
    ensures { result ≡ is_beyond_ascii characters octet }
{
    match characters {
        LocalCharacters::Ascii => false,
        LocalCharacters::Utf8 => octet >= 0x80,
    }
}

/// Returns whether the text is a quoted string, "@" and a domain.
fn is_quoted_mailbox(characters: LocalCharacters, text: &[u8]) -> bool
    ensures { IsTrue result ↔ IsQuotedMailbox characters text.now }
{
    match text {
        [b'"', rest @ ..] => quoted_follows(characters, rest),
        _ => false,
    }
}

/// Returns whether the text is the rest of a quoted string, "@" and a domain.
fn quoted_follows(characters: LocalCharacters, text: &[u8]) -> bool
    ensures { IsTrue result ↔ QuotedFollows characters text.now }
{
    let mut left = text;
    while let Some(rest) = behind_quoted(characters, left) {
        left = rest;
    }
    closes(left)
}

/// Returns the text after its first character, if a quoted string may have that.
fn behind_quoted(characters: LocalCharacters, text: &[u8]) -> Option<&[u8]>
    ensures { MatchOption result ((rest : List ℕ) → ¬ IsQuoted characters text.now rest)
        (λ x. IsQuoted characters text.now x.now × (length x.now < length text.now)) }
{
    match text {
        [b'\\', escaped, rest @ ..] => {
            if is_printable(*escaped) {
                Some(rest)
            } else {
                None
            }
        }
        [first, rest @ ..] => {
            if is_qtext(characters, *first) {
                Some(rest)
            } else {
                None
            }
        }
        [] => None,
    }
}

/// Returns whether the quoted string is closed, and "@" and a domain follow.
fn closes(text: &[u8]) -> bool
    ensures { IsTrue result ↔ Closes text.now }
{
    match text {
        [b'"', b'@', domain @ ..] => is_domain(domain),
        _ => false,
    }
}

/// Returns whether a quoted string may have the character without a backslash.
fn is_qtext(characters: LocalCharacters, octet: u8) -> bool
    ensures { result ≡ is_qtext characters octet }
{
    (is_printable(octet) && octet != b'"' && octet != b'\\') || is_beyond_ascii(characters, octet)
}

/// Returns whether the octet is a visible character of ASCII or the space.
fn is_printable(octet: u8) -> bool
    ensures { result ≡ is_printable octet }
{
    octet >= b' ' && octet <= b'~'
}

/// Returns whether the text is a host name or an address literal.
fn is_domain(text: &[u8]) -> bool
    ensures { IsTrue result ↔ IsDomain text.now }
{
    is_host_name(text) || is_address_literal(text)
}

/// Returns whether the text is an address in brackets. The address isn't checked.
fn is_address_literal(text: &[u8]) -> bool
    ensures { IsTrue result ↔ IsAddressLiteral text.now }
{
    match text {
        [b'[', rest @ ..] => is_literal_content(rest),
        _ => false,
    }
}

/// Returns whether the text is characters of a literal, at least one, and a bracket.
fn is_literal_content(text: &[u8]) -> bool
    ensures { IsTrue result ↔ IsLiteralContent text.now }
{
    match text.split_last() {
        Some((last, inside)) => is_closed_by(*last, inside),
        None => false,
    }
}

/// Returns whether the last octet is a bracket, with characters of a literal before it.
fn is_closed_by(last: u8, inside: &[u8]) -> bool
    ensures { IsTrue result
        ↔ ((last ≡ 93) × (inside.now ≢ []) × IsTrue (list_all is_literal_character inside.now)) }
{
    last == b']' && !inside.is_empty() && are_literal_characters(inside)
}

pub(crate) fn are_literal_characters(text: &[u8]) -> bool
    ensures { result ≡ list_all is_literal_character text.now }
{
    text.iter().all(|octet| is_literal_character(*octet))
}

/// Returns whether the octet is a visible character of ASCII other than brackets and the backslash.
fn is_literal_character(octet: u8) -> bool
    ensures { result ≡ is_literal_character octet }
{
    (octet >= b'!' && octet <= b'Z') || (octet >= b'^' && octet <= b'~')
}
