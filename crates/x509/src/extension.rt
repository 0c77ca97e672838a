//! Extensions (RFC 5280 4.1.2.9, 4.2).
ghost use Rattle.std.specs.Prelude.{[], OnOk};
ghost use Rattle.x509.specs.Certificates.{extension, extension_of, extensions, extensions_to_end};
ghost use Rattle.x509.specs.Formats.{explicit_or};
ghost use Rattle.x509.specs.Readers.{IsShorter, ReadsBy, ReadsToEnd, fault_of};

use der_base::error::BerError;
use der_cursor::{Cursor, ReadError};
use der_values::ObjectIdentifier;

/// The extensions of a certificate, as their checked octets.
#[derive(Clone, Copy)]
pub struct Extensions<'a> {
    /// The encodings of the extensions, one after another. Empty iff there are none.
    pub octets: &'a [u8],
}

/// An extension.
#[derive(Drop)]
pub struct Extension<'a> {
    /// The type of the extension.
    pub identifier: ObjectIdentifier<'a>,
    /// If true, an application that doesn't know the extension must reject the certificate.
    pub critical: bool,
    /// The encoding of the value, whose type `identifier` names.
    pub value: &'a [u8],
}

/// Reads extensions under this explicit tag; if it isn't next, there are none. The tag is 3 in a certificate and 0 in a
/// CRL (RFC 5280 5.1).
pub fn read_extensions<'a>(
    fields: &mut Cursor<'a>,
    number: u8,
) -> Result<Extensions<'a>, ReadError<BerError>>
    ensures { ReadsBy fault_of (λ e. e.octets.now) (explicit_or [] number extensions) fields.old result fields.new }
{
    let Some(mut inside) = fields.open_tagged(number)? else {
        return Ok(Extensions { octets: &[] });
    };
    let extensions = read_extension_list(&mut inside)?;
    inside.end()?;
    Ok(extensions)
}

/// Reads an Extensions: at least one extension.
pub fn read_extension_list<'a>(
    fields: &mut Cursor<'a>,
) -> Result<Extensions<'a>, ReadError<BerError>>
    ensures { ReadsBy fault_of (λ e. e.octets.now) extensions fields.old result fields.new }
{
    let list = fields.open_sequence()?;
    check_extensions(list)?;
    Ok(Extensions {
        octets: list.remaining(),
    })
}

/// Reads extensions to the end of a list, at least one.
fn check_extensions(mut list: Cursor<'_>) -> Result<(), ReadError<BerError>>
    ensures { ReadsToEnd fault_of (λ u. u) extensions_to_end list.entry result }
{
    if list.is_empty() {
        return Err(list.refuse(BerError::BerValueError));
    }
    while !list.is_empty() {
        read_extension(&mut list)?;
    }
    Ok(())
}

/// Reads an Extension.
pub fn read_extension<'a>(list: &mut Cursor<'a>) -> Result<Extension<'a>, ReadError<BerError>>
    ensures reads { ReadsBy fault_of extension_of extension list.old result list.new }
    ensures shorter { OnOk result (IsShorter list.old list.new) }
{
    let mut parts = list.open_sequence()?;
    let identifier = parts.oid()?;
    let critical = parts.boolean_or(false)?;
    let value = parts.octets()?;
    parts.end()?;
    Ok(Extension {
        identifier,
        critical,
        value,
    })
}
