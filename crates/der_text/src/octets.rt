//! The octets of a text.
ghost use Rattle.std.specs.Prelude.{◌≡◌, ◌+◌, ◌⊎◌, ◌==◌, MatchResult, count_by, not};
ghost use Rattle.std.specs.List.{suffix_len};
ghost use Rattle.der_text.specs.Encoded.{GivesOrFaults};
ghost use Rattle.der_text.specs.Texts.{located, octets_of_text, octets_or_fault};

use crate::encoder::encode;
use crate::error::{Fault, Problem, TextError};
use crate::reader::read_items;
use std::alloc::Global;

/// The octets of a text (docs/TEXT.md).
///
/// The error is the first word that isn't of the grammar; else the last brace that isn't closed, or whose length
/// doesn't fit its form; else the first closing brace without an opening one; or `OutOfMemory`.
///
/// ```
/// let octets = octets_of(alloc, b"SEQUENCE { INTEGER { 5 } }")?;
/// assert_eq!(octets, [0x30, 0x03, 0x02, 0x01, 0x05]);
/// ```
pub fn octets_of(alloc: Global, text: &[u8]) -> Result<Vec<u8>, TextError>
    ensures { MatchResult result
        (λ v. octets_of_text text.now ≡ Ok v.items)
        (λ e. (e.problem ≡ Problem.OutOfMemory) ⊎ (octets_of_text text.now ≡ Err e)) }
{
    match octets_or_fault(alloc, text) {
        Ok(octets) => Ok(octets),
        Err(fault) => Err(located(text, fault)),
    }
}

/// The octets of a text, or its fault.
fn octets_or_fault(alloc: Global, text: &[u8]) -> Result<Vec<u8>, Fault>
    ensures { GivesOrFaults (octets_or_fault text.now) result }
{
    match read_items(alloc, text) {
        Ok(items) => encode(alloc, &items),
        Err(fault) => Err(fault),
    }
}

/// The error with the line and column of a fault.
fn located(text: &[u8], fault: Fault) -> TextError
    ensures { result ≡ located text.now fault }
{
    let before = &text[..text.len().saturating_sub(fault.left)];
    TextError {
        problem: fault.problem,
        line: line_after(before),
        column: column_after(before),
    }
}

/// The number of the line after a text.
fn line_after(text: &[u8]) -> usize
    ensures { result ≡ 1 + count_by (λ c. c == 10) text.now }
{
    1 + text.iter().filter(|octet| **octet == b'\n').count()
}

/// The number of the column after a text.
fn column_after(text: &[u8]) -> usize
    ensures { result ≡ 1 + suffix_len (λ c. not (c == 10)) text.now }
{
    let mut column = 1;
    let mut rest = text;
    while let Some((last, before)) = rest.split_last() {
        if *last == b'\n' {
            return column;
        }
        column += 1;
        rest = before;
    }
    column
}
