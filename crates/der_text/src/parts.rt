//! Octets in quotes and in hexadecimal.
ghost use Rattle.std.specs.Prelude.{◌≡◌, ◌↔◌, ◌<◌, ◌≤◌, [], ◌++◌, IfOk, IsTrue, OnOk, length, not};
ghost use Rattle.std.specs.List.{prefix_len};
ghost use Rattle.der_text.specs.Looks.{IsText, OctetsText, after_part, break_text, hexadecimal_size, is_broken};
ghost use Rattle.der_text.specs.Looks.{part_text};
ghost use Rattle.der_text.specs.Printed.{Adds, Prints, Puts, is_plain};

use crate::write::{MANY, write_hexadecimal, write_line_end, write_quoted, write_spaces};
use std::alloc::AllocError;

/// Writes octets: a text in quotes, the rest in hexadecimal. Lines after the first are indented.
pub(crate) fn write_octets(
    out: &mut Vec<u8>,
    octets: &[u8],
    indent: usize,
) -> Result<(), AllocError>
    ensures puts { OnOk result (Puts out.old.items out.new.items octets.now) }
    ensures text { OnOk result (Adds out.old.items out.new.items (OctetsText indent octets.now)) }
{
    let text = is_text(octets);
    let mut rest = octets;
    while !rest.is_empty() {
        rest = write_part(out, rest, text)?;
        write_break(out, is_broken(text, rest), indent)?;
    }
    Ok(())
}

/// Returns whether another line begins before the rest.
fn is_broken(text: bool, rest: &[u8]) -> bool
    ensures { result ≡ is_broken text rest.now }
{
    !text && !rest.is_empty()
}

/// Begins another line, if more octets follow.
fn write_break(out: &mut Vec<u8>, more: bool, indent: usize) -> Result<(), AllocError>
    ensures puts { OnOk result (Puts out.old.items out.new.items []) }
    ensures text { OnOk result (out.new.items ≡ out.old.items ++ break_text more indent) }
{
    if !more {
        return Ok(());
    }
    write_line_end(out)?;
    write_spaces(out, indent)?;
    Ok(())
}

/// Returns whether octets are written as text: they are UTF-8, and most of them may be in quotes.
fn is_text(octets: &[u8]) -> bool
    ensures { IsTrue result ↔ IsText octets.now }
{
    let plain = octets.iter().filter(|octet| is_plain(**octet)).count();
    octets.len() - plain <= octets.len() / 4 && std::str::from_utf8(octets).is_ok()
}

/// Writes the first octets, in quotes if possible, else in hexadecimal. Returns the rest.
fn write_part<'a>(out: &mut Vec<u8>, octets: &'a [u8], text: bool) -> Result<&'a [u8], AllocError>
    requires { 0 < length octets.now }
    ensures prints { IfOk result (λ rest. Prints out.old.items out.new.items octets.now rest.now) }
    ensures fewer { IfOk result (λ rest. length rest.now < length octets.now) }
    ensures rest { IfOk result (λ rest. rest.now ≡ after_part text octets.now) }
    ensures text { OnOk result (out.new.items ≡ out.old.items ++ part_text text octets.now) }
{
    if text {
        let plain = plain_length(octets);
        if plain > 0 {
            let (part, rest) = octets.split_at(plain);
            write_quoted(out, part)?;
            return Ok(rest);
        }
    }
    let (part, rest) = octets.split_at(part_length(octets, text));
    write_hexadecimal(out, part)?;
    Ok(rest)
}

/// The number of octets to write in hexadecimal at once.
fn part_length(octets: &[u8], text: bool) -> usize
    requires { 0 < length octets.now }
    ensures some { 0 < result }
    ensures few { result ≤ 32 }
    ensures within { result ≤ length octets.now }
    ensures size { result ≡ hexadecimal_size text octets.now }
{
    let most = MANY.min(octets.len());
    if text {
        return hidden_length(&octets[..most]).max(1);
    }
    most
}

/// The number of leading octets that can't be in quotes.
fn hidden_length(octets: &[u8]) -> usize
    ensures count { result ≡ prefix_len (λ c. not (is_plain c)) octets.now }
    ensures within { result ≤ length octets.now }
{
    octets.iter().take_while(|octet| !is_plain(**octet)).count()
}

/// The number of leading octets that may be in quotes.
fn plain_length(octets: &[u8]) -> usize
    ensures count { result ≡ prefix_len is_plain octets.now }
    ensures within { result ≤ length octets.now }
{
    octets.iter().take_while(|octet| is_plain(**octet)).count()
}

/// Returns whether an octet may be in quotes.
fn is_plain(octet: u8) -> bool
    ensures { result ≡ is_plain octet }
{
    matches!(octet, b' '..=b'~') && octet != b'"'
}
