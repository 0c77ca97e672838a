//! Extensions that say all by being there: their value is a NULL.
ghost use Rattle.der_base.specs.declared.rules.Rules.{Rules};
ghost use Rattle.der_cursor.specs.Formats.{Never, Null, Only, ReadsInput, ReadsWhole, Required};

use der_base::error::BerError;
use der_base::header::{Class, Tag};
use der_cursor::{Cursor, ReadError};

/// Reads by DER the value of an extension that says all by being there, a NULL: OCSP no-check (RFC 6960 4.2.2.2.1), the
/// poison of a precertificate (RFC 6962 3.1), noRevAvail (RFC 9608 2). Trailing data is an error.
pub fn read_null(octets: &[u8]) -> Result<(), ReadError<BerError>>
    ensures { ReadsInput Rules.Der Null (λ x. x) Never octets.now result }
{
    match read_whole_null(octets) {
        Ok(()) => Ok(()),
        Err(e) => Err(e.of_element(Cursor::new(octets), Class::Universal, false, Tag::Null)),
    }
}

fn read_whole_null(octets: &[u8]) -> Result<(), ReadError<BerError>>
    ensures { ReadsWhole (Only (Required Null) Rules.Der octets.now) (λ x. x) Never result }
{
    let mut input = Cursor::new(octets);
    input.null()?;
    input.end()?;
    Ok(())
}
