//! Names as text (RFC 4514).
ghost use Rattle.std.specs.Fmt.{WritesInCalls};
ghost use Rattle.std.specs.Prelude.{IsOk, List, ℕ};
ghost use Rattle.c_formats.specs.NameTexts.{IsNameText};
ghost use Rattle.c_values.specs.Rooms.{PutsOne};
ghost use Rattle.extension_text.specs.Names.Names.{IsName};

use c_values::room::{Room, Script};
use extension_text::names::write_name;
use std::fmt;
use x509::Name;

/// Writes a name in these characters, the last relative name first. Returns the length of the text.
pub fn put_name(name: Name<'_>, script: Script, text: &mut [u8]) -> usize
    ensures { PutsOne (IsNameText script name.entry.octets.now) text.old text.new result }
{
    let mut room = Room::new(text, script);
    match write_at(&mut room, name) {
        Ok(()) => room.length,
        Err(_) => 0,
    }
}

/// Writes a name in UTF-8.
fn write_at<W: fmt::Write>(out: &mut W, name: Name<'_>) -> fmt::Result
    ensures { IsOk result → (text : List ℕ) × IsName name.entry.octets.now text
        × WritesInCalls W.Write.write_str_gives out.old text out.new }
{
    let mut f = fmt::Formatter::new(out);
    let result = write_name(&mut f, name);
    f.into_inner();
    result
}
