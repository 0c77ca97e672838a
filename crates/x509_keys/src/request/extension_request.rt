//! Requested extensions (RFC 2985 5.4.2).
ghost use Rattle.x509_keys.specs.Request.Requests.{extension_request};
ghost use Rattle.x509.specs.Readers.{ReadsExactly, fault_of};

use crate::request::attribute::Values;
use der_base::error::BerError;
use der_cursor::{Cursor, ReadError};
use x509::Extensions;
use x509::parts::read_extension_list;

/// Reads the value of an `EXTENSION_REQUEST` attribute: a list of extensions. Trailing data is an error. Offsets of
/// errors count from the start of the values.
///
/// ```
/// for attribute in request.info.attributes.iter() {
///     if attribute.identifier.is(attribute_identifiers::EXTENSION_REQUEST) {
///         for extension in read_extension_request(attribute.values)?.iter() {
///             println!(rt; "{}", extension.identifier)?;
///         }
///     }
/// }
/// ```
pub fn read_extension_request(values: Values<'_>) -> Result<Extensions<'_>, ReadError<BerError>>
    ensures { ReadsExactly fault_of (λ e. e.octets.now) extension_request values.entry.octets.now result }
{
    let mut input = Cursor::new(values.octets);
    let extensions = read_extension_list(&mut input)?;
    input.end()?;
    Ok(extensions)
}
