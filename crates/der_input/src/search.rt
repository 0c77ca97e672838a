//! Searches octets in others. The page can't free memory, and the searchers of `bstr` may own a copy of the needle.
ghost use Rattle.std.specs.Prelude.{◌≡◌, ◌↔◌, ◌≤◌, IsTrue, drop, length};
ghost use Rattle.bstr.specs.Text.{Contains};
ghost use Rattle.memchr.specs.Find.{FindsNeedle, IsFirst, OccursAt, Passes, is_byte};

use memchr::memchr;

/// Returns whether the needle occurs in the text.
pub(crate) fn contains(text: &[u8], needle: &[u8]) -> bool
    ensures { IsTrue result ↔ Contains text.now needle.now }
{
    match find(text, needle) {
        Some(_) => true,
        None => false,
    }
}

/// The first offset of the needle in the text.
pub(crate) fn find(text: &[u8], needle: &[u8]) -> Option<usize>
    ensures { FindsNeedle text.now needle.now 0 result }
{
    if needle.is_empty() {
        return Some(0);
    }
    let first = needle[0];
    let mut from = 0;
    'places: while let Some(place) = next_place(text, first, from) {
        if occurs_at(text, needle, place) {
            return Some(place);
        }
        from = place + 1;
    }
    None
}

/// The next offset of the octet, from `from` on.
fn next_place(text: &[u8], octet: u8, from: usize) -> Option<usize>
    requires { from ≤ length text.now }
    ensures { IsFirst (Passes (is_byte octet) text.now) from (length text.now) result }
{
    let distance = memchr(octet, rest_from(text, from))?;
    Some(from + distance)
}

/// Returns whether the needle is at this offset of the text.
fn occurs_at(text: &[u8], needle: &[u8], place: usize) -> bool
    requires { place ≤ length text.now }
    ensures { IsTrue result ↔ OccursAt text.now needle.now place }
{
    rest_from(text, place).starts_with(needle)
}

/// The text from this offset on.
pub(crate) fn rest_from(text: &[u8], from: usize) -> &[u8]
    requires { from ≤ length text.now }
    ensures { result.now ≡ drop from text.now }
{
    let (_, rest) = text.split_at(from);
    rest
}
