//! SubjectKeyIdentifier and AuthorityKeyIdentifier: the key of a certificate, and the key that signed it (RFC 5280
//! 4.2.1.1, 4.2.1.2).
ghost use Rattle.std.specs.Option.{option_map};
ghost use Rattle.der_base.specs.declared.rules.Rules.{Rules};
ghost use Rattle.der_cursor.specs.Formats.{Implicit, Integer, Never, OctetString, Only, Optional};
ghost use Rattle.der_cursor.specs.Formats.{ReadsField, ReadsInput, ReadsWhole, Required};
ghost use Rattle.der_extensions.specs.Extensions.{AuthorityKeyIdentifier as AuthorityFormat, authority_of};
ghost use Rattle.der_extensions.specs.GeneralNames.{GeneralNames as NamesFormat};
ghost use Rattle.der_extensions.specs.Lists.{list_octets};

use crate::general_name::GeneralNames;
use crate::list::read_optional;
use der_base::error::BerError;
use der_base::header::{Class, Tag};
use der_cursor::{Cursor, ReadError};

/// The value of the extension AuthorityKeyIdentifier.
#[derive(Drop)]
pub struct AuthorityKeyIdentifier<'a> {
    pub key_identifier: Option<&'a [u8]>,
    /// The names of the issuer of the issuer's certificate. At least one, if present.
    pub authority_cert_issuer: Option<GeneralNames<'a>>,
    /// The content octets of the serial number of the issuer's certificate, in two's complement.
    pub authority_cert_serial_number: Option<&'a [u8]>,
}

/// Reads the value of a SubjectKeyIdentifier by DER: its octets. Trailing data is an error.
pub fn read_subject_key_identifier(octets: &[u8]) -> Result<&[u8], ReadError<BerError>>
    ensures { ReadsInput Rules.Der OctetString (λ x. x.now) Never octets.now result }
{
    match read_whole_identifier(octets) {
        Ok(identifier) => Ok(identifier),
        Err(e) => Err(e.of_element(
            Cursor::new(octets),
            Class::Universal,
            false,
            Tag::OctetString,
        )),
    }
}

fn read_whole_identifier(octets: &[u8]) -> Result<&[u8], ReadError<BerError>>
    ensures { ReadsWhole (Only (Required OctetString) Rules.Der octets.now) (λ x. x.now) Never result }
{
    let mut input = Cursor::new(octets);
    let identifier = input.octets()?;
    input.end()?;
    Ok(identifier)
}

/// Reads the value of an AuthorityKeyIdentifier by DER. Trailing data is an error.
pub fn read_authority_key_identifier(
    octets: &[u8],
) -> Result<AuthorityKeyIdentifier<'_>, ReadError<BerError>>
    ensures { ReadsInput Rules.Der AuthorityFormat authority_of Never octets.now result }
{
    match read_whole_authority(octets) {
        Ok(authority) => Ok(authority),
        Err(e) => Err(e.of_element(Cursor::new(octets), Class::Universal, true, Tag::Sequence)),
    }
}

fn read_whole_authority(octets: &[u8]) -> Result<AuthorityKeyIdentifier<'_>, ReadError<BerError>>
    ensures { ReadsWhole (Only (Required AuthorityFormat) Rules.Der octets.now) authority_of Never result }
{
    let mut input = Cursor::new(octets);
    let authority = read_authority(&mut input)?;
    input.end()?;
    Ok(authority)
}

fn read_authority<'a>(
    input: &mut Cursor<'a>,
) -> Result<AuthorityKeyIdentifier<'a>, ReadError<BerError>>
    ensures { ReadsField (Required AuthorityFormat) authority_of Never input.old result input.new }
{
    let mut fields = input.open_sequence()?;
    let key_identifier = read_key_identifier(&mut fields)?;
    let authority_cert_issuer = read_issuer_names(&mut fields)?;
    let authority_cert_serial_number = read_issuer_serial(&mut fields)?;
    fields.end()?;
    Ok(AuthorityKeyIdentifier {
        key_identifier,
        authority_cert_issuer,
        authority_cert_serial_number,
    })
}

fn read_key_identifier<'a>(fields: &mut Cursor<'a>) -> Result<Option<&'a [u8]>, ReadError<BerError>>
    ensures { ReadsField (Optional (Implicit 0 OctetString)) (λ x. option_map (λ v. v.now) x) Never
        fields.old result fields.new }
{
    fields.implicit(0).optional_octets()
}

fn read_issuer_names<'a>(
    fields: &mut Cursor<'a>,
) -> Result<Option<GeneralNames<'a>>, ReadError<BerError>>
    ensures { ReadsField (Optional (Implicit 1 NamesFormat)) (λ x. option_map list_octets x) Never
        fields.old result fields.new }
{
    read_optional(fields, Class::ContextSpecific, Tag(1))
}

fn read_issuer_serial<'a>(fields: &mut Cursor<'a>) -> Result<Option<&'a [u8]>, ReadError<BerError>>
    ensures { ReadsField (Optional (Implicit 2 Integer)) (λ x. option_map (λ v. v.now) x) Never
        fields.old result fields.new }
{
    fields.implicit(2).optional_integer()
}
