//! Whether two items of a list have the same identifier. Items are extensions (RFC 5280 4.2) or policies (4.2.1.4).
ghost use Rattle.std.specs.Prelude.{◌↔◌, IsTrue, MatchOption, length, map};
ghost use Rattle.x509.specs.Rules.{AreIndistinct, HasMoreThan, HasRepetition, HasTwice, HaveEqualNeighbours};

use crate::first_element::first_element;
use der_base::header::Tag;

/// Most lists have no more items than this; a longer one takes a larger array.
const FEW_ITEMS: usize = 16;

/// The most items that are compared. RFC 5280 B leaves the length of a list to an implementation.
pub const MOST_ITEMS: usize = 512;

/// Returns whether two items begin with the same identifier, or there are more than `MOST_ITEMS`. It sorts
/// the identifiers, so the time is n log n. Takes no memory but 8 KiB of stack, and only for more than 16 items.
pub fn are_indistinct(items: &[u8]) -> bool
    ensures { IsTrue result ↔ AreIndistinct items.now }
{
    let mut slots: [&[u8]; FEW_ITEMS] = [&[]; FEW_ITEMS];
    match repeats(items, &mut slots) {
        Some(repeats) => repeats,
        None => are_many_indistinct(items),
    }
}

/// As `are_indistinct`, with slots for `MOST_ITEMS`.
#[inline(never)]
fn are_many_indistinct(items: &[u8]) -> bool
    ensures { IsTrue result ↔ AreIndistinct items.now }
{
    let mut slots: [&[u8]; MOST_ITEMS] = [&[]; MOST_ITEMS];
    match repeats(items, &mut slots) {
        Some(repeats) => repeats,
        None => true,
    }
}

/// Returns whether two items begin with the same identifier, or None if there are more identifiers than slots.
fn repeats<'a>(items: &'a [u8], slots: &mut [&'a [u8]]) -> Option<bool>
    ensures { let most = length slots.old in MatchOption result
        (HasMoreThan most items.now)
        (λ b. (¬ HasMoreThan most items.now) × (IsTrue b ↔ HasRepetition items.now)) }
{
    let mut count = 0;
    let mut left = items;
    while let Some(item) = first_element(left, true, Tag::Sequence) {
        if let Some(identifier) = first_element(item.content, false, Tag::Oid) {
            if count == slots.len() {
                return None;
            }
            slots[count] = identifier.content;
            count += 1;
        }
        left = item.rest;
    }
    Some(has_twice(&mut slots[..count]))
}

/// Sorts the octets and returns whether two are equal.
fn has_twice(texts: &mut [&[u8]]) -> bool
    ensures { IsTrue result ↔ HasTwice (map (λ t. t.now) texts.old) }
{
    texts.sort_unstable();
    have_equal_neighbours(texts)
}

/// Returns whether two neighbours are equal.
fn have_equal_neighbours(texts: &[&[u8]]) -> bool
    ensures { IsTrue result ↔ HaveEqualNeighbours texts.now (λ t. t.now) }
{
    for place in 1..texts.len() {
        if texts[place - 1] == texts[place] {
            return true;
        }
    }
    false
}
