//! PEM blocks (RFC 7468), with text around them.
ghost use Rattle.std.specs.Prelude.{◌≡◌, ◌↔◌, ◌+◌, ◌==◌, ◌≤◌, ◌||◌, find, length, drop, codes, option_copied};
ghost use Rattle.std.specs.Prelude.{IfErr, IfOk, IfSome, IsTrue, MatchOption};
ghost use Rattle.bstr.specs.Find.{FindsNeedle};
ghost use Rattle.bstr.specs.Text.{Contains};
ghost use Rattle.der_input.specs.Blocks.{BeginsWithBlock, BreaksBlock, EndsLines, HasLabel, HasNoEnd, HasNoLabel};
ghost use Rattle.der_input.specs.Blocks.{IsEncrypted, OpensBlock, RefusesLines, SpellsLines, SplitsRound};
ghost use Rattle.der_input.specs.Blocks.{begins_here, begins_line, begins_string, ends_line, first_begin};
ghost use Rattle.der_input.specs.Blocks.{has_escape_first, is_indent, label_of, lines_of};
ghost use Rattle.der_input.specs.Forms.{HasNoBlock};
ghost use Rattle.der_input.specs.Slices.{DecodesLines};

use crate::error::FormError;
use crate::marks::is_mark;
use crate::plain::decode_base64;
use crate::search::{contains, find, rest_from};
use crate::slices::decode_base64_into;
use std::alloc::Global;

/// The start of a block, before its label.
pub(crate) const BEGIN: &[u8] = b"-----BEGIN ";

/// The start of the end line of a block, before its label.
pub(crate) const END: &[u8] = b"-----END ";

const DASHES: &[u8] = b"-----";

/// The octets from the first dashes on that contain the start of the end line: up to four dashes may be before it.
const NEAR: usize = 13;

/// The header of an encrypted block (RFC 1421 4.6.1.1).
const ENCRYPTED: &[u8] = b"Proc-Type: 4,ENCRYPTED";

/// A block.
#[derive(Clone, Copy)]
pub struct Block<'a> {
    /// The label, such as `CERTIFICATE`.
    pub label: &'a [u8],
    /// The lines between the first and the last one.
    lines: &'a [u8],
}

impl Block<'_> {
    /// Decodes the block. An error if it is encrypted or isn't base64.
    pub fn decode(&self, alloc: Global) -> Result<Vec<u8>, FormError>
        ensures ok { IfOk result (λ v. SpellsLines (lines_of self.now) v.items) }
        ensures err { IfErr result (RefusesLines (lines_of self.now)) }
    {
        if self.is_encrypted() {
            return Err(FormError::Encrypted);
        }
        decode_base64(alloc, self.lines)
    }

    /// Decodes the block into `octets`, as `decode` does, and returns the number of octets. For `room` and OutOfMemory
    /// see `decode_base64_into`.
    pub fn decode_into(&self, room: &mut [u8], octets: &mut [u8]) -> Result<usize, FormError>
        ensures { DecodesLines (lines_of self.now) (length room.old) octets.new result }
    {
        if self.is_encrypted() {
            return Err(FormError::Encrypted);
        }
        decode_base64_into(self.lines, room, octets)
    }

    /// Returns whether the lines have the header of an encrypted block.
    fn is_encrypted(&self) -> bool
        ensures { IsTrue result ↔ IsEncrypted (lines_of self.now) }
    {
        contains(self.lines, ENCRYPTED)
    }
}

/// Returns the first block and the text after it. None if no block begins at the start of a line. Octets before the
/// block may have any encoding. An error if a block doesn't end before the next one, or ends with another label.
pub fn next_block(text: &[u8]) -> Result<Option<(Block<'_>, &[u8])>, FormError>
    ensures ok { IfOk result (λ found. MatchOption found
        (HasNoBlock text.now)
        (λ x. BeginsWithBlock text.now (label_of x.0) (lines_of x.0) x.1.now)) }
    ensures err { IfErr result (BreaksBlock text.now) }
{
    let Some(block) = open_block(text) else {
        return Ok(None);
    };
    let Some((label, opened)) = split_round(block, DASHES) else {
        return Err(FormError::NoEnd);
    };
    let Some((lines, end)) = split_lines(opened) else {
        return Err(FormError::NoEnd);
    };
    match split_round(end, DASHES) {
        Some((last, rest)) if last == label => Ok(Some((Block { label, lines }, rest))),
        Some(_) => Err(FormError::LabelsDiffer),
        None => Err(FormError::NoEnd),
    }
}

/// The label of the first block and the text after its dashes, even if the block doesn't end. None if no block begins,
/// or no dashes follow.
pub fn first_label(text: &[u8]) -> Option<(&[u8], &[u8])>
    ensures { MatchOption result (HasNoLabel text.now) (λ x. HasLabel text.now x.0.now x.1.now) }
{
    let block = open_block(text)?;
    split_round(block, DASHES)
}

/// The text after the start of the first block.
fn open_block(text: &[u8]) -> Option<&[u8]>
    ensures { MatchOption result (HasNoBlock text.now) (λ x. OpensBlock text.now x.now) }
{
    let begin = first_begin(text)?;
    Some(&text[begin + BEGIN.len()..])
}

/// The offset of the first block: at the start of a line or after an indent.
pub fn first_begin(text: &[u8]) -> Option<usize>
    ensures first { result ≡ first_begin text.now }
    ensures within { IfSome result (λ k. k + 11 ≤ length text.now) }
{
    let mut from = 0;
    'occurrences: while let Some(begin) = next_begin(text, from) {
        if begins_here(text, begin) {
            return Some(begin);
        }
        from = begin + 1;
    }
    None
}

/// The next offset of the start of a block.
fn next_begin(text: &[u8], from: usize) -> Option<usize>
    requires { from ≤ length text.now }
    ensures { FindsNeedle text.now (codes "-----BEGIN ") from result }
{
    let rest = rest_from(text, from);
    let distance = find(rest, BEGIN)?;
    Some(from + distance)
}

/// Returns whether a line begins at this offset, or a JSON string with a line end in it.
fn begins_here(text: &[u8], begin: usize) -> bool
    requires { begin ≤ length text.now }
    ensures { result ≡ begins_here text.now begin }
{
    let (before, behind) = text.split_at(begin);
    begins_line(before) || begins_string(before, behind)
}

/// Returns whether a line begins after these octets, perhaps with an indent.
fn begins_line(before: &[u8]) -> bool
    ensures { result ≡ begins_line before.now }
{
    let mut end = before.len();
    'octets: while end > 0 {
        let octet = before[end - 1];
        if !is_indent(octet) {
            return ends_line(&before[..end]);
        }
        end -= 1;
    }
    true
}

/// Returns whether an octet may be before a block on its line: white space, quotes, the `>` of a mail, and the octets
/// of a byte order mark in UTF-8.
fn is_indent(octet: u8) -> bool
    ensures { result ≡ is_indent octet }
{
    is_mark(b" \t>\"'\xef\xbb\xbf", octet)
}

/// Returns whether a line ends with these octets, perhaps as an escape, as in JSON.
fn ends_line(before: &[u8]) -> bool
    ensures { result ≡ ends_line before.now }
{
    before.ends_with(b"\n")
        || before.ends_with(b"\r")
        || before.ends_with(b"\\n")
        || before.ends_with(b"\\r")
}

/// Returns whether a JSON string with a line end in it begins between these octets.
fn begins_string(before: &[u8], behind: &[u8]) -> bool
    ensures { result ≡ begins_string before.now behind.now }
{
    before.ends_with(b"\"") && has_escape_first(behind)
}

/// Returns whether a backslash comes before any quote. The search ends at the next string at the latest.
fn has_escape_first(text: &[u8]) -> bool
    ensures { result ≡ has_escape_first text.now }
{
    match first_mark(text) {
        Some(mark) => *mark == b'\\',
        None => false,
    }
}

/// The first backslash or quote.
fn first_mark(text: &[u8]) -> Option<&u8>
    ensures { option_copied result ≡ find (λ c. c == 0x5c || c == 0x22) text.now }
{
    text.iter().find(|octet| matches!(**octet, b'\\' | b'"'))
}

/// The lines of a block, and the text after the start of its end line. None if there is no end line, or other dashes
/// are before it. Only the text near the first dashes is searched: otherwise a text of many blocks without an end would
/// be read to its end for each of them.
fn split_lines(opened: &[u8]) -> Option<(&[u8], &[u8])>
    ensures { MatchOption result (HasNoEnd opened.now) (λ x. EndsLines opened.now x.0.now x.1.now) }
{
    let dashes = find(opened, DASHES)?;
    let near = &opened[..opened.len().min(dashes + NEAR)];
    let (lines, _) = split_round(near, END)?;
    Some((lines, &opened[lines.len() + END.len()..]))
}

/// The text before and after the first occurrence of the needle.
fn split_round<'a>(text: &'a [u8], needle: &[u8]) -> Option<(&'a [u8], &'a [u8])>
    ensures { MatchOption result (¬ Contains text.now needle.now)
        (λ x. SplitsRound text.now needle.now x.0.now x.1.now) }
{
    let place = find(text, needle)?;
    let (before, rest) = text.split_at(place);
    let (_, after) = rest.split_at(needle.len());
    Some((before, after))
}
