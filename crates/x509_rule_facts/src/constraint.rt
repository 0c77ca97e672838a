//! The forms of names in constraints (RFC 5280 4.2.1.10).
ghost use Rattle.std.specs.Prelude.{◌≡◌, ◌↔◌, ◌≤◌, ◌==◌, ◌/◌, IsTrue, drop, length, not};
ghost use Rattle.std.specs.List.{list_all, position_or_len};
ghost use Rattle.x509_rule_facts.specs.Constraints.{EndsInMask, EndsMask, IsDomainPart, IsHostOrDomain, IsMask};
ghost use Rattle.x509_rule_facts.specs.Constraints.{behind_ones, is_edge};

use crate::host_name::is_host_name;

/// The octets with bits 1 and then bits 0, at least one 0.
const EDGES: &[u8] = b"\x00\x80\xc0\xe0\xf0\xf8\xfc\xfe";

/// Returns whether the text is a host name, or a dot and a domain name.
pub fn is_host_or_domain(text: &[u8]) -> bool
    ensures { IsTrue result ↔ IsHostOrDomain text.now }
{
    is_host_name(text) || is_domain_part(text)
}

fn is_domain_part(text: &[u8]) -> bool
    ensures { IsTrue result ↔ IsDomainPart text.now }
{
    match text {
        [b'.', name @ ..] => is_host_name(name),
        _ => false,
    }
}

/// Returns whether the second half of the octets is a mask.
pub fn ends_in_mask(octets: &[u8]) -> bool
    ensures { IsTrue result ↔ EndsInMask octets.now }
{
    is_mask(second_half(octets))
}

fn second_half(octets: &[u8]) -> &[u8]
    ensures { result.now ≡ drop (length octets.now / 2) octets.now }
{
    &octets[octets.len() / 2..]
}

/// Returns whether the octets are bits 1 and then bits 0.
fn is_mask(octets: &[u8]) -> bool
    ensures { IsTrue result ↔ IsMask octets.now }
{
    ends_mask(behind_ones(octets))
}

/// Returns whether the octets after the leading ones are the end of a mask.
fn ends_mask(octets: &[u8]) -> bool
    ensures { IsTrue result ↔ EndsMask octets.now }
{
    match octets {
        [first, rest @ ..] => is_edge(*first) && are_zeros(rest),
        [] => true,
    }
}

/// Returns whether the octet is bits 1 and then bits 0, at least one 0.
fn is_edge(octet: u8) -> bool
    ensures { result ≡ is_edge octet }
{
    EDGES.contains(&octet)
}

fn are_zeros(octets: &[u8]) -> bool
    ensures { result ≡ list_all (λ b. b == 0) octets.now }
{
    octets.iter().all(|octet| *octet == 0)
}

/// The octets after the leading ones with all bits 1.
fn behind_ones(octets: &[u8]) -> &[u8]
    ensures { result.now ≡ behind_ones octets.now }
{
    &octets[ones_end(octets)..]
}

/// The number of leading octets with all bits 1.
fn ones_end(octets: &[u8]) -> usize
    ensures first { result ≡ position_or_len (λ b. not (b == 255)) octets.now }
    ensures within { result ≤ length octets.now }
{
    octets
        .iter()
        .position(|octet| *octet != 255)
        .unwrap_or(octets.len())
}
