//! Names of object identifiers.
#![tactic(auto)]

ghost use Rattle.std.specs.Prelude.{◌≡◌, ◌++◌, ◌∷◌, IfSome, IsTrue, List, ℕ};
ghost use Rattle.hex.specs.Hex.{encode_lower};
ghost use Rattle.oid_names.specs.Tables.{EndsLine, HasLine};

mod own;
mod table;

use memchr::memchr;
pub use own::{NamesError, OwnNames, name_among};
use std::str;
pub use table::NAMES;
use table::{LINES, SMALLER};

/// The number of hashes.
const HASHES: u64 = 1024;

/// The most hexadecimal digits of a named identifier.
const DIGITS: usize = 128;

/// The name of the object identifier with these content octets (X.690 8.19), if it has one.
pub fn name_of(octets: &[u8]) -> Option<&'static str>
    ensures { IfSome result (λ name. HasLine NAMES.now (encode_lower octets.now ++ 0x20 ∷ name.now)) }
{
    let mut room = [0; DIGITS];
    let digits = room.get_mut(..octets.len().checked_mul(2)?)?;
    match hex::encode_to_slice(octets, digits) {
        Ok(()) => find_name(NAMES.as_bytes(), lines_with(hash_of(octets)), digits),
        Err(_) => None,
    }
}

/// The hash of content octets, as in tools/identifier-names.
fn hash_of(octets: &[u8]) -> usize {
    let mut hash: u64 = 0;
    for octet in octets {
        hash = hash.wrapping_mul(31).wrapping_add(u64::from(*octet));
    }
    (hash % HASHES) as usize
}

/// The offsets of the lines whose octets have this hash.
fn lines_with(hash: usize) -> &'static [u16] {
    match (SMALLER.get(hash), SMALLER.get(hash.saturating_add(1))) {
        (Some(first), Some(end)) => LINES
            .get(usize::from(*first)..usize::from(*end))
            .unwrap_or(&[]),
        _ => &[],
    }
}

/// The name on the first of these lines that begins with these digits and a space. Lines are given by their offsets.
fn find_name<'a>(table: &'a [u8], begins: &[u16], digits: &[u8]) -> Option<&'a str>
    ensures { IfSome result (λ name. HasLine table.now (digits.now ++ 0x20 ∷ name.now)) }
{
    for begin in begins {
        if let Some(name) = name_at(table, usize::from(*begin), digits) {
            return Some(name);
        }
    }
    None
}

/// The name on the line at this offset, if it begins with these digits and a space.
fn name_at<'a>(table: &'a [u8], begin: usize, digits: &[u8]) -> Option<&'a str>
    ensures { IfSome result (λ name. HasLine table.now (digits.now ++ 0x20 ∷ name.now)) }
{
    let (before, line) = table.split_at_checked(begin)?;
    let (first, rest) = line.split_at_checked(digits.len())?;
    if first == digits && ends_line(before) {
        name_behind(rest)
    } else {
        None
    }
}

/// The name after the digits and a space.
fn name_behind(rest: &[u8]) -> Option<&str>
    ensures { IfSome result (λ name. (after : List ℕ) × (rest.now ≡ 0x20 ∷ (name.now ++ 0x0a ∷ after))) }
{
    let (digits, behind) = split_once(rest, b' ')?;
    if !digits.is_empty() {
        return None;
    }
    let (name, _) = split_once(behind, b'\n')?;
    text_of(name)
}

/// Returns whether a line begins after these octets.
fn ends_line(octets: &[u8]) -> bool
    ensures { IsTrue result → EndsLine octets.now }
{
    match octets.split_last() {
        Some((last, _)) => *last == b'\n',
        None => true,
    }
}

/// The text, if octets are UTF-8.
fn text_of(octets: &[u8]) -> Option<&str>
    ensures { IfSome result (λ text. text.now ≡ octets.now) }
{
    str::from_utf8(octets).ok()
}

/// The octets before and after the first such octet.
fn split_once(text: &[u8], octet: u8) -> Option<(&[u8], &[u8])>
    ensures { IfSome result (λ x. text.now ≡ x.0.now ++ octet ∷ x.1.now) }
{
    let place = memchr(octet, text)?;
    Some((&text[..place], &text[place + 1..]))
}
