//! Puts values after testing them.
ghost use Rattle.std.specs.Prelude.{◌≡◌, Result, false};
ghost use Rattle.c_values.specs.Tested.{PutsAnyText, PutsInteger, PutsTime, number_of_arcs};
ghost use Rattle.der_base.specs.declared.error.Error.{Error as BerError};
ghost use Rattle.der_base.specs.declared.error.OidParseError.{OidParseError};
ghost use Rattle.der_base.specs.OidArcs.{octets_of_arcs};
ghost use Rattle.der_writer.specs.Written.{PutsArcs};

use crate::errors::refusal_number;
use crate::moment::{has_time, put_moment, time_of};
use crate::time::DmTime;
use der_base::error::{BerError, OidParseError};
use der_base::header::Tag;
use der_base::integer::check_fewest_octets;
use der_base::text::is_text_type;
use der_writer::Writer;

/// Puts an INTEGER, if its octets are the fewest.
pub fn put_integer(writer: &mut Writer<'_>, octets: &[u8]) -> Result<(), BerError>
    ensures { PutsInteger octets.now writer.old result writer.new }
{
    check_fewest_octets(octets)?;
    writer.put_integer(octets);
    Ok(())
}

/// Puts an OBJECT IDENTIFIER, if it can have these arcs.
pub fn put_arcs(writer: &mut Writer<'_>, arcs: &[u64]) -> Result<(), OidParseError>
    ensures { PutsArcs (octets_of_arcs false arcs.now) writer.old result writer.new }
{
    writer.put_arcs(arcs)
}

/// 0, or the number of the error of the arcs.
pub fn number_of_arcs(found: Result<(), OidParseError>) -> u32
    ensures { result ≡ number_of_arcs found }
{
    match found {
        Ok(()) => 0,
        Err(OidParseError::TooShort) => refusal_number(BerError::InvalidLength),
        Err(_) => refusal_number(BerError::BerValueError),
    }
}

/// Puts a text, if its octets are in the character set of its type.
pub fn put_text(writer: &mut Writer<'_>, tag: Tag, octets: &[u8]) -> Result<(), BerError>
    ensures { PutsAnyText tag.0 octets.now writer.old result writer.new }
{
    if tag == Tag::BmpString {
        writer.put_bmp(octets)
    } else if is_text_type(tag) {
        writer.put_text(tag, octets)
    } else {
        Err(BerError::BerTypeError)
    }
}

/// Puts a time, if the type has it.
pub fn put_time(writer: &mut Writer<'_>, tag: Tag, time: &DmTime) -> Result<(), BerError>
    ensures { PutsTime tag.0 time.now writer.old result writer.new }
{
    if !has_time(tag, time) {
        return Err(BerError::InvalidDateTime);
    }
    put_moment(writer, tag, time_of(tag, time));
    Ok(())
}
