//! The syntax of host names (RFC 1034 3.1, 3.5 and RFC 1123 2.1, for RFC 5280 4.2.1.6).
ghost use Rattle.std.specs.Prelude.{◌≡◌, ◌-◌, ◌==◌, ◌↔◌, IsTrue, length, slice_get};
ghost use Rattle.std.specs.List.{list_all, slice_split};
ghost use Rattle.x509_rule_facts.specs.HostNames.{IsPreferredName, IsWildcardName, is_host_name, is_label};
ghost use Rattle.x509_rule_facts.specs.HostNames.{is_label_character, is_let_dig, is_name_size};

/// The most characters of a name. Its labels, each with a length octet, and the root have at most 255 octets (RFC 1034
/// 3.1).
const LONGEST_NAME: usize = 253;

/// The most characters of a label.
const LONGEST_LABEL: usize = 63;

/// The name " ".
const BLANK: &[u8] = b" ";

/// Returns whether the text is in the preferred name syntax, perhaps after a leading "*.".
pub fn is_preferred_name(text: &[u8]) -> bool
    ensures { IsTrue result ↔ IsPreferredName text.now }
{
    text == BLANK || is_host_name(text) || (is_name_size(text) && is_wildcard_name(text))
}

/// Returns whether the text is "*." and a host name.
fn is_wildcard_name(text: &[u8]) -> bool
    ensures { IsTrue result ↔ IsWildcardName text.now }
{
    match text {
        [b'*', b'.', rest @ ..] => is_host_name(rest),
        _ => false,
    }
}

/// Returns whether each part between dots is a label, and the name isn't too long.
pub fn is_host_name(text: &[u8]) -> bool
    ensures { result ≡ is_host_name text.now }
{
    is_name_size(text) && are_labels(text)
}

fn is_name_size(text: &[u8]) -> bool
    ensures { result ≡ is_name_size text.now }
{
    text.len() <= LONGEST_NAME
}

/// Returns whether each part between dots is a label.
fn are_labels(text: &[u8]) -> bool
    ensures { result ≡ list_all is_label (slice_split (λ b. b == 46) text.now) }
{
    text.split(|octet| *octet == b'.')
        .all(|label| is_label(label))
}

/// Returns whether it is a label: letters, digits and inner hyphens, up to 63 characters.
fn is_label(label: &[u8]) -> bool
    ensures { result ≡ is_label label.now }
{
    label.len() <= LONGEST_LABEL
        && are_label_characters(label)
        && begins_with_let_dig(label)
        && ends_in_let_dig(label)
}

fn are_label_characters(label: &[u8]) -> bool
    ensures { result ≡ list_all is_label_character label.now }
{
    label.iter().all(|octet| is_label_character(*octet))
}

/// Returns whether the first octet is a letter or a digit.
fn begins_with_let_dig(label: &[u8]) -> bool
    ensures { result ≡ is_let_dig (slice_get label.now 0) }
{
    is_let_dig(label.first().copied())
}

/// Returns whether the last octet is a letter or a digit.
fn ends_in_let_dig(label: &[u8]) -> bool
    ensures { result ≡ is_let_dig (slice_get label.now (length label.now - 1)) }
{
    is_let_dig(label.last().copied())
}

/// Returns whether it is a letter, a digit or a hyphen.
fn is_label_character(octet: u8) -> bool
    ensures { result ≡ is_label_character octet }
{
    octet.is_ascii_alphanumeric() || octet == b'-'
}

/// Returns whether the octet is there and is a letter or a digit.
fn is_let_dig(octet: Option<u8>) -> bool
    ensures { result ≡ is_let_dig octet }
{
    match octet {
        Some(octet) => octet.is_ascii_alphanumeric(),
        None => false,
    }
}
