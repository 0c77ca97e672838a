//! BasicConstraints: whether the subject is a CA (RFC 5280 4.2.1.9).
ghost use Rattle.der_base.specs.declared.rules.Rules.{Rules};
ghost use Rattle.der_cursor.specs.Formats.{Never, Only, ReadsField, ReadsInput, ReadsWhole, Required};
ghost use Rattle.der_extensions.specs.Extensions.{BasicConstraints as ConstraintsFormat, constraints_of};

use der_base::error::BerError;
use der_base::header::{Class, Tag};
use der_cursor::{Cursor, ReadError};

/// The value of the extension BasicConstraints.
#[derive(Clone, Copy, PartialEq)]
pub struct BasicConstraints {
    /// Whether the key may verify signatures of certificates.
    pub ca: bool,
    /// How many CA certificates may follow this one in a path. None if there is no limit.
    pub path_length: Option<u32>,
}

/// Reads the value of a BasicConstraints by DER. Trailing data is an error, and so is a path length above 2^32-1.
pub fn read_basic_constraints(octets: &[u8]) -> Result<BasicConstraints, ReadError<BerError>>
    ensures { ReadsInput Rules.Der ConstraintsFormat constraints_of Never octets.now result }
{
    match read_whole_constraints(octets) {
        Ok(constraints) => Ok(constraints),
        Err(e) => Err(e.of_element(Cursor::new(octets), Class::Universal, true, Tag::Sequence)),
    }
}

fn read_whole_constraints(octets: &[u8]) -> Result<BasicConstraints, ReadError<BerError>>
    ensures { ReadsWhole (Only (Required ConstraintsFormat) Rules.Der octets.now) constraints_of Never result }
{
    let mut input = Cursor::new(octets);
    let constraints = read_constraints(&mut input)?;
    input.end()?;
    Ok(constraints)
}

fn read_constraints(input: &mut Cursor<'_>) -> Result<BasicConstraints, ReadError<BerError>>
    ensures { ReadsField (Required ConstraintsFormat) constraints_of Never input.old result input.new }
{
    let mut fields = input.open_sequence()?;
    let ca = fields.boolean_or(false)?;
    let path_length = fields.optional_u32()?;
    fields.end()?;
    Ok(BasicConstraints { ca, path_length })
}
