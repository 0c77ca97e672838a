//! CabfOrganizationIdentifier: an organization in a register (CA/B Forum, EV Guidelines 9.8.2).
ghost use Rattle.std.specs.Option.{option_map};
ghost use Rattle.der_base.specs.declared.rules.Rules.{Rules};
ghost use Rattle.der_cursor.specs.Formats.{Implicit, Never, Only, Optional, ReadsField, ReadsInput, ReadsWhole};
ghost use Rattle.der_cursor.specs.Formats.{Required};
ghost use Rattle.der_extensions.specs.WebExtensions.{CABFOrganizationIdentifier as IdentifierFormat};
ghost use Rattle.der_extensions.specs.WebExtensions.{PrintableString, StateOrProvince, TextOf};
ghost use Rattle.der_extensions.specs.WebExtensions.{organization_identifier_of};

use der_base::error::BerError;
use der_base::header::{Class, Tag};
use der_cursor::{Cursor, ReadError};

/// The most characters of a state or province.
const LONGEST_STATE: usize = 128;

/// The value of the extension cabfOrganizationIdentifier.
#[derive(Drop)]
pub struct OrganizationIdentifier<'a> {
    /// The kind of the register, such as VAT. Three characters.
    pub registration_scheme_identifier: &'a str,
    /// The country of the register. Two characters.
    pub registration_country: &'a str,
    /// The state or province of the register. At most 128 characters.
    pub registration_state_or_province: Option<&'a str>,
    /// The number of the organization in the register.
    pub registration_reference: &'a str,
}

/// Reads the value of a cabfOrganizationIdentifier by DER. Trailing data is an error. Neither the country nor the kind
/// of the register is checked.
pub fn read_organization_identifier(
    octets: &[u8],
) -> Result<OrganizationIdentifier<'_>, ReadError<BerError>>
    ensures { ReadsInput Rules.Der IdentifierFormat organization_identifier_of Never octets.now result }
{
    match read_whole_identifier(octets) {
        Ok(identifier) => Ok(identifier),
        Err(e) => Err(e.of_element(Cursor::new(octets), Class::Universal, true, Tag::Sequence)),
    }
}

fn read_whole_identifier(octets: &[u8]) -> Result<OrganizationIdentifier<'_>, ReadError<BerError>>
    ensures { ReadsWhole (Only (Required IdentifierFormat) Rules.Der octets.now) organization_identifier_of Never
        result }
{
    let mut input = Cursor::new(octets);
    let identifier = read_identifier(&mut input)?;
    input.end()?;
    Ok(identifier)
}

fn read_identifier<'a>(
    input: &mut Cursor<'a>,
) -> Result<OrganizationIdentifier<'a>, ReadError<BerError>>
    ensures { ReadsField (Required IdentifierFormat) organization_identifier_of Never input.old result input.new }
{
    let mut fields = input.open_sequence()?;
    let registration_scheme_identifier = read_text_of(&mut fields, 3)?;
    let registration_country = read_text_of(&mut fields, 2)?;
    let registration_state_or_province = read_state(&mut fields)?;
    let registration_reference = fields.utf8_string()?;
    fields.end()?;
    Ok(OrganizationIdentifier {
        registration_scheme_identifier,
        registration_country,
        registration_state_or_province,
        registration_reference,
    })
}

/// Reads a PrintableString with this number of characters.
fn read_text_of<'a>(fields: &mut Cursor<'a>, count: usize) -> Result<&'a str, ReadError<BerError>>
    ensures { ReadsField (Required (TextOf count)) (λ x. x.now) Never fields.old result fields.new }
{
    let before = *fields;
    let text = fields.printable_string()?;
    if text.len() != count {
        return Err(before.refuse(BerError::BerValueError));
    }
    Ok(text)
}

/// Reads a state or province under the implicit tag [0], if it is next.
fn read_state<'a>(fields: &mut Cursor<'a>) -> Result<Option<&'a str>, ReadError<BerError>>
    ensures { ReadsField (Optional (Implicit 0 StateOrProvince)) (λ x. option_map (λ v. v.now) x) Never
        fields.old result fields.new }
{
    if !fields.is_next(Class::ContextSpecific, Tag(0)) {
        return Ok(None);
    }
    let state = read_tagged_state(fields)?;
    Ok(Some(state))
}

fn read_tagged_state<'a>(fields: &mut Cursor<'a>) -> Result<&'a str, ReadError<BerError>>
    ensures { ReadsField (Required (Implicit 0 StateOrProvince)) (λ x. x.now) Never fields.old result fields.new }
{
    let before = *fields;
    let state = read_tagged_text(fields)?;
    if state.len() > LONGEST_STATE {
        return Err(before.refuse(BerError::BerValueError));
    }
    Ok(state)
}

fn read_tagged_text<'a>(fields: &mut Cursor<'a>) -> Result<&'a str, ReadError<BerError>>
    ensures { ReadsField (Required (Implicit 0 PrintableString)) (λ x. x.now) Never fields.old result fields.new }
{
    fields.implicit(0).printable_string()
}
