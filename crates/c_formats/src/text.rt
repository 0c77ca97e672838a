//! Texts that a cursor of C reads.
ghost use Rattle.c_formats.specs.CursorTexts.{HasSameOctets, ReadsText};
ghost use Rattle.c_values.specs.Cursors.{IsOctets, ReadsField};

use c_values::cursor::{DmCursor, resume};
use c_values::fault::DmFault;
use c_values::next::finish_octets;
use c_values::octets::DmOctets;
use der_base::error::BerError;
use der_base::header::Tag;
use der_base::text::is_text_type;
use der_cursor::{Cursor, ReadError};

/// Reads the next element as a text of the string type with this tag number, and writes its octets. Returns the fault.
pub fn next_text<'a>(cursor: &mut DmCursor<'a>, number: u32, text: &mut DmOctets<'a>) -> DmFault
    ensures { ReadsField (ReadsText number) IsOctets cursor.old cursor.new text.old text.new result }
{
    let mut fields = resume(cursor);
    let found = read_text(&mut fields, Tag(number));
    finish_octets(cursor, fields, octets_of(found), text)
}

/// Reads a text of this type. BerTypeError if it is no string type that is kept as a text.
fn read_text<'a>(fields: &mut Cursor<'a>, tag: Tag) -> Result<&'a str, ReadError<BerError>>
    ensures { ReadsText tag.0 fields.old result fields.new }
{
    if is_text_type(tag) {
        fields.text(tag)
    } else {
        Err(fields.refuse(BerError::BerTypeError))
    }
}

/// The octets of a text.
fn octets_of<'a>(
    found: Result<&'a str, ReadError<BerError>>,
) -> Result<&'a [u8], ReadError<BerError>>
    ensures { HasSameOctets found.entry result }
{
    match found {
        Ok(text) => Ok(text.as_bytes()),
        Err(e) => Err(e),
    }
}
