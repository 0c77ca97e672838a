//! InvalidityDate: the date since which a key is known to be invalid (RFC 5280 5.3.2).
ghost use Rattle.der_base.specs.declared.rules.Rules.{Rules};
ghost use Rattle.der_cursor.specs.Formats.{GeneralizedTime, Never, Only, ReadsInput, ReadsWhole, Required};

use der_base::error::BerError;
use der_base::header::{Class, Tag};
use der_base::time::ASN1DateTime;
use der_cursor::{Cursor, ReadError};

/// Reads the value of an InvalidityDate by DER: a GeneralizedTime. Trailing data is an error. The seconds may have a
/// fraction.
pub fn read_invalidity_date(octets: &[u8]) -> Result<ASN1DateTime, ReadError<BerError>>
    ensures { ReadsInput Rules.Der GeneralizedTime (λ x. x) Never octets.now result }
{
    match read_whole_date(octets) {
        Ok(date) => Ok(date),
        Err(e) => Err(e.of_element(
            Cursor::new(octets),
            Class::Universal,
            false,
            Tag::GeneralizedTime,
        )),
    }
}

fn read_whole_date(octets: &[u8]) -> Result<ASN1DateTime, ReadError<BerError>>
    ensures { ReadsWhole (Only (Required GeneralizedTime) Rules.Der octets.now) (λ x. x) Never result }
{
    let mut input = Cursor::new(octets);
    let date = input.generalized_time()?;
    input.end()?;
    Ok(date)
}
