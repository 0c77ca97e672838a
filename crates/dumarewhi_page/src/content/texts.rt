//! Parts of errors, and how much of a value is printed.
ghost use Rattle.std.specs.Prelude.{◌≡◌, ◌==◌, if◌then◌else◌};
ghost use Rattle.der_print.specs.declared.style.Limit.{Limit};
ghost use Rattle.dumarewhi_page.specs.Content.Errors.{PutsPart, part_numbered};

use crate::content::fault::Fault;
use crate::content::room::put;
use der_elements::{ElementError, Walk};
use der_print::Limit;

/// A part of an error.
pub enum Part {
    /// The offset, the path and the cause, as `der` prints them.
    Whole,
    Cause,
    Path,
}

/// How much of a value is printed: 0 cuts a long one.
pub fn limit_numbered(full: u32) -> Limit
    ensures { result ≡ (if full == 0 then Limit.Front else Limit.Whole) }
{
    match full {
        0 => Limit::Front,
        _ => Limit::Whole,
    }
}

/// The part of an error with this number.
pub fn part_numbered(number: u32) -> Part
    ensures { result ≡ part_numbered number }
{
    match number {
        0 => Part::Whole,
        1 => Part::Cause,
        _ => Part::Path,
    }
}

/// Writes a part of an error. Returns the length of the text.
pub fn put_refusal(walk: &Walk<'_>, refusal: ElementError, part: Part, text: &mut [u8]) -> usize
    ensures { PutsPart part walk.now refusal text.old text.new result }
{
    let path = &walk.path(&refusal);
    let reason = walk.reason(&refusal);
    match part {
        Part::Whole => {
            let offset = refusal.offset;
            put(
                text,
                Fault {
                    offset,
                    path,
                    reason,
                },
            )
        }
        Part::Cause => put(text, reason),
        Part::Path => put(text, path),
    }
}
