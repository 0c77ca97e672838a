//! The summary of an input.
ghost use Rattle.std.specs.Fmt.{WritesInCalls};
ghost use Rattle.std.specs.Prelude.{ℕ, IsOk, List, Some};
ghost use Rattle.der_show.specs.Shown.{IsShown};
ghost use Rattle.dumarewhi_page.specs.Content.Texts.{PutsOne};

use crate::content::room::Room;
use der_show::{Known, write_known};
use std::fmt;

/// Writes the summary of an input. Returns the length of the text.
pub fn put_known(input: &[u8], known: &Known<'_>, present: u64, text: &mut [u8]) -> usize
    ensures { PutsOne (IsShown (Some present) input.now known.now) text.old text.new result }
{
    let mut room = Room::new(text);
    match write_at(&mut room, input, known, present) {
        Ok(_) => room.length,
        Err(_) => 0,
    }
}

/// Writes the summary at this time. Returns what `write_known` does.
fn write_at<W: fmt::Write>(
    out: &mut W,
    input: &[u8],
    known: &Known<'_>,
    present: u64,
) -> Result<bool, fmt::Error>
    ensures { IsOk result → (text : List ℕ) × IsShown (Some present) input.now known.now text
        × WritesInCalls W.Write.write_str_gives out.old text out.new }
{
    let mut f = fmt::Formatter::new(out);
    let result = write_known(&mut f, input, known, Some(present));
    f.into_inner();
    result
}
