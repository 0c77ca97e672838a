//! CRLNumber: the number of a CRL (RFC 5280 5.2.3, 5.2.4).
ghost use Rattle.std.specs.Prelude.{◌↔◌, IsTrue, pos, ◌<ℤ◌};
ghost use Rattle.der_base.specs.declared.rules.Rules.{Rules};
ghost use Rattle.der_base.specs.Octets.{integer_value};
ghost use Rattle.der_cursor.specs.Formats.{Never, Only, ReadsField, ReadsInput, ReadsWhole, Required};
ghost use Rattle.der_extensions.specs.Revocation.{CRLNumber};

use der_base::error::BerError;
use der_base::header::{Class, Tag};
use der_base::integer::is_negative;
use der_cursor::{Cursor, ReadError};

/// Reads the value of a CRLNumber or of a deltaCRLIndicator (5.2.4) by DER. Returns the content octets of the number,
/// the highest first. Trailing data is an error, and so is a negative number. The number may have more than the 20
/// octets of RFC 5280.
pub fn read_crl_number(octets: &[u8]) -> Result<&[u8], ReadError<BerError>>
    ensures { ReadsInput Rules.Der CRLNumber (λ x. x.now) Never octets.now result }
{
    match read_whole_number(octets) {
        Ok(number) => Ok(number),
        Err(e) => Err(e.of_element(Cursor::new(octets), Class::Universal, false, Tag::Integer)),
    }
}

fn read_whole_number(octets: &[u8]) -> Result<&[u8], ReadError<BerError>>
    ensures { ReadsWhole (Only (Required CRLNumber) Rules.Der octets.now) (λ x. x.now) Never result }
{
    let mut input = Cursor::new(octets);
    let number = read_natural(&mut input)?;
    input.end()?;
    Ok(number)
}

/// Reads an INTEGER that isn't negative.
fn read_natural<'a>(input: &mut Cursor<'a>) -> Result<&'a [u8], ReadError<BerError>>
    ensures { ReadsField (Required CRLNumber) (λ x. x.now) Never input.old result input.new }
{
    let before = *input;
    let number = input.integer()?;
    if is_below_zero(number) {
        return Err(before.refuse(BerError::IntegerNegative));
    }
    Ok(number)
}

fn is_below_zero(number: &[u8]) -> bool
    ensures { IsTrue result ↔ (integer_value number.now <ℤ pos 0) }
{
    is_negative(number)
}
