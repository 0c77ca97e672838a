//! Calls that write a name as text (RFC 4514).
ghost use Rattle.c_formats.specs.NameTexts.{IsNameText};
ghost use Rattle.c_values.specs.Rooms.{PutsOne};
ghost use Rattle.c_values.specs.declared.room.Script.{Script};

use c_formats::name_text::put_name;
use c_values::room::Script;
use x509::Name;

/// Writes a name in ASCII, the last relative name first, as far as the capacity allows. Returns the length of the text.
#[unsafe(no_mangle)]
pub extern "C" fn dm_name_text(name: &[u8], text: &mut [u8]) -> usize
    ensures { PutsOne (IsNameText Script.Ascii name.now) text.old text.new result }
{
    put_name(Name { octets: name }, Script::Ascii, text)
}

/// Writes a name in UTF-8, as `dm_name_text`.
#[unsafe(no_mangle)]
pub extern "C" fn dm_name_utf8(name: &[u8], text: &mut [u8]) -> usize
    ensures { PutsOne (IsNameText Script.Utf8 name.now) text.old text.new result }
{
    put_name(Name { octets: name }, Script::Utf8, text)
}
