//! EDI party names (RFC 5280 4.2.1.6).
ghost use Rattle.std.specs.Prelude.{◌↔◌, IsTrue};
ghost use Rattle.std.specs.Option.{option_map};
ghost use Rattle.der_base.specs.declared.rules.Rules.{Rules};
ghost use Rattle.der_cursor.specs.Formats.{Explicit, Never, Optional, ReadsField, ReadsWhole, Required, element_of};
ghost use Rattle.der_extensions.specs.GeneralNames.{name_of};
ghost use Rattle.x509_value_rules.specs.Parties.{DirectoryString, EDIPartyName as PartyFormat, IsDirectoryString};
ghost use Rattle.x509_value_rules.specs.Parties.{IsNoParty, IsParty, party_of};

use der_base::any::Any;
use der_base::error::BerError;
use der_base::header::{Class, Tag};
use der_cursor::{Cursor, ReadError};
use der_extensions::GeneralName;
use x509_rule_facts::attributes::{StringKind, is_string};

/// The parts of an ediPartyName, both DirectoryStrings.
#[derive(Drop)]
pub(crate) struct EdiPartyName<'a> {
    pub name_assigner: Option<Any<'a>>,
    pub party_name: Any<'a>,
}

/// Returns whether it is an ediPartyName whose content isn't an EDIPartyName.
pub(crate) fn is_no_party(name: &GeneralName<'_>) -> bool
    ensures { IsTrue result ↔ IsNoParty (name_of name.now) }
{
    match name {
        GeneralName::EdiPartyName(content) => !is_party(content),
        _ => false,
    }
}

/// Returns whether the content octets are those of an EDIPartyName.
fn is_party(content: &[u8]) -> bool
    ensures { IsTrue result ↔ IsParty content.now }
{
    match read_party(content) {
        Ok(_) => true,
        Err(_) => false,
    }
}

/// Reads the content octets of an EDIPartyName.
fn read_party(content: &[u8]) -> Result<EdiPartyName<'_>, ReadError<BerError>>
    ensures { ReadsWhole (PartyFormat Rules.Der content.now) party_of Never result }
{
    let mut fields = Cursor::new(content);
    let name_assigner = read_assigner(&mut fields)?;
    let party_name = read_tagged_string(&mut fields, 1)?;
    fields.end()?;
    Ok(EdiPartyName {
        name_assigner,
        party_name,
    })
}

/// Reads a nameAssigner, if its tag is next.
fn read_assigner<'a>(fields: &mut Cursor<'a>) -> Result<Option<Any<'a>>, ReadError<BerError>>
    ensures { ReadsField (Optional (Explicit 0 DirectoryString)) (λ x. option_map element_of x) Never
        fields.old result fields.new }
{
    if !fields.is_next(Class::ContextSpecific, Tag(0)) {
        return Ok(None);
    }
    let assigner = read_tagged_string(fields, 0)?;
    Ok(Some(assigner))
}

/// Reads a DirectoryString under this explicit tag.
fn read_tagged_string<'a>(
    fields: &mut Cursor<'a>,
    number: u32,
) -> Result<Any<'a>, ReadError<BerError>>
    ensures { ReadsField (Required (Explicit number DirectoryString)) element_of Never
        fields.old result fields.new }
{
    let mut inside = fields.open(Class::ContextSpecific, true, Tag(number))?;
    let string = read_string(&mut inside)?;
    inside.end()?;
    Ok(string)
}

/// Reads a DirectoryString.
fn read_string<'a>(fields: &mut Cursor<'a>) -> Result<Any<'a>, ReadError<BerError>>
    ensures { ReadsField DirectoryString element_of Never fields.old result fields.new }
{
    let before = *fields;
    let string = fields.any()?;
    if !is_directory_string(&string) {
        return Err(before.refuse(BerError::BerValueError));
    }
    Ok(string)
}

/// Returns whether it is one of the five string types, and not empty.
fn is_directory_string(element: &Any<'_>) -> bool
    ensures { IsTrue result ↔ IsDirectoryString (element_of element.now) }
{
    element.class() == Class::Universal
        && element.header.is_primitive()
        && is_string(StringKind::Directory, element.tag())
        && !element.bytes.is_empty()
}
