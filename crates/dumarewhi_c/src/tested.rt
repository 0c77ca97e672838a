//! Calls that test a value and put it. Each returns 0, or the number of an error; then nothing is put.
ghost use Rattle.std.specs.Prelude.{◌≡◌, Result, false};
ghost use Rattle.c_values.specs.ErrorNumbers.{number_of_result};
ghost use Rattle.c_values.specs.Tested.{PutsAnyText, PutsInteger, PutsTime, number_of_arcs};
ghost use Rattle.der_base.specs.declared.error.Error.{Error as BerError};
ghost use Rattle.der_base.specs.declared.error.OidParseError.{OidParseError};
ghost use Rattle.der_base.specs.OidArcs.{octets_of_arcs};
ghost use Rattle.der_writer.specs.Written.{PutsArcs};

use c_values::errors::number_of_result;
use c_values::tested::{number_of_arcs, put_arcs, put_integer, put_text, put_time};
use c_values::time::DmTime;
use der_base::error::{BerError, OidParseError};
use der_base::header::Tag;
use der_writer::Writer;

/// Puts an INTEGER with these content octets, in two's complement (X.690 8.3), if they are the fewest.
#[unsafe(no_mangle)]
pub extern "C" fn dm_put_integer(writer: &mut Writer<'_>, octets: &[u8]) -> u32
    ensures { (found : Result (Unit {0}) BerError)
        × PutsInteger octets.now writer.old found writer.new
        × (result ≡ number_of_result found) }
{
    number_of_result(put_integer(writer, octets))
}

/// Puts an OBJECT IDENTIFIER with these arcs (X.690 8.19). Error 4: fewer than two arcs. Error 2: the first is above 2,
/// the second above 39 after 0 or 1, or their subidentifier above 2^64-1.
#[unsafe(no_mangle)]
pub extern "C" fn dm_put_arcs(writer: &mut Writer<'_>, arcs: &[u64]) -> u32
    ensures { (found : Result (Unit {0}) OidParseError)
        × PutsArcs (octets_of_arcs false arcs.now) writer.old found writer.new
        × (result ≡ number_of_arcs found) }
{
    number_of_arcs(put_arcs(writer, arcs))
}

/// Puts a string with these octets (X.690 8.23), if they are in the character set of its type.
#[unsafe(no_mangle)]
pub extern "C" fn dm_put_text(writer: &mut Writer<'_>, number: u32, octets: &[u8]) -> u32
    ensures { (found : Result (Unit {0}) BerError)
        × PutsAnyText number octets.now writer.old found writer.new
        × (result ≡ number_of_result found) }
{
    number_of_result(put_text(writer, Tag(number), octets))
}

/// Puts a UTCTime (23, X.690 11.8) or GeneralizedTime (24, 11.7) in universal time, if the type has it.
#[unsafe(no_mangle)]
pub extern "C" fn dm_put_time(writer: &mut Writer<'_>, number: u32, time: &DmTime) -> u32
    ensures { (found : Result (Unit {0}) BerError)
        × PutsTime number time.now writer.old found writer.new
        × (result ≡ number_of_result found) }
{
    number_of_result(put_time(writer, Tag(number), time))
}
