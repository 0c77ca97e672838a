//! The reader of a value that is an INTEGER.
ghost use Rattle.der_base.specs.declared.rules.Rules.{Rules};
ghost use Rattle.der_cursor.specs.Formats.{Integer, Never, Only, ReadsWhole, Required};

use der_base::error::BerError;
use der_cursor::{Cursor, ReadError};

/// Reads an INTEGER by DER and returns its content octets. Trailing data is an error.
pub fn read_number(octets: &[u8]) -> Result<&[u8], ReadError<BerError>>
    ensures { ReadsWhole (Only (Required Integer) Rules.Der octets.now) (λ x. x.now) Never result }
{
    let mut input = Cursor::new(octets);
    let number = input.integer()?;
    input.end()?;
    Ok(number)
}
