//! GeneralName: names of nine kinds (RFC 5280 4.2.1.6).
ghost use Rattle.der_base.specs.declared.rules.Rules.{Rules};
ghost use Rattle.der_cursor.specs.Formats.{AnyElement, Explicit, Implicit, Never, ObjectIdentifier as IdentifierFormat};
ghost use Rattle.der_cursor.specs.Formats.{OctetString, Octets, ReadsField, ReadsInput, Required, Sequence, Text};
ghost use Rattle.der_cursor.specs.Formats.{element_of};
ghost use Rattle.der_extensions.specs.GeneralNames.{Chosen, GeneralName as AnyName, GeneralNames as NamesFormat};
ghost use Rattle.der_extensions.specs.GeneralNames.{Name as NameFormat, OtherName as OtherNameFormat};
ghost use Rattle.der_extensions.specs.GeneralNames.{directory_name, dns_name, edi_party_name, ip_address, name_of};
ghost use Rattle.der_extensions.specs.GeneralNames.{other_name, other_name_of, registered_id, rfc822_name};
ghost use Rattle.der_extensions.specs.GeneralNames.{uniform_resource_identifier, x400_address};
ghost use Rattle.der_extensions.specs.Lists.{list_octets};

use crate::directory_name::read_name;
use crate::list::{Item, SequenceOf, read_list};
use der_base::any::Any;
use der_base::error::BerError;
use der_base::header::{Class, Tag};
use der_cursor::{Cursor, ReadError};
use der_values::ObjectIdentifier;
use x509::Name;

/// At least one name.
pub type GeneralNames<'a> = SequenceOf<'a, GeneralName<'a>>;

/// A name, by its kind. A text has the characters of IA5String (ASCII). Its syntax isn't checked.
#[derive(Drop)]
pub enum GeneralName<'a> {
    /// A name whose kind is given by an object identifier.
    OtherName(OtherName<'a>),
    /// The address of a mailbox.
    Rfc822Name(&'a str),
    DnsName(&'a str),
    /// The content octets of an ORAddress. They aren't checked.
    X400Address(&'a [u8]),
    DirectoryName(Name<'a>),
    /// The content octets of an EDIPartyName. They aren't checked.
    EdiPartyName(&'a [u8]),
    UniformResourceIdentifier(&'a str),
    /// The octets of an address: 4 for IPv4 and 16 for IPv6. In name constraints the mask follows, with as many octets.
    /// Their number isn't checked.
    IpAddress(&'a [u8]),
    RegisteredId(ObjectIdentifier<'a>),
}

/// A name whose kind is given by an object identifier.
#[derive(Drop)]
pub struct OtherName<'a> {
    pub type_id: ObjectIdentifier<'a>,
    /// A value whose type the identifier names. Its content isn't checked.
    pub value: Any<'a>,
}

/// Reads the value of a SubjectAltName or an IssuerAltName (4.2.1.7) by DER: at least one name. Trailing data is an
/// error.
pub fn read_general_names(octets: &[u8]) -> Result<GeneralNames<'_>, ReadError<BerError>>
    ensures { ReadsInput Rules.Der NamesFormat list_octets Never octets.now result }
{
    match read_list::<GeneralName<'_>, BerError>(octets) {
        Ok(names) => Ok(names),
        Err(e) => Err(e.of_element(Cursor::new(octets), Class::Universal, true, Tag::Sequence)),
    }
}

impl<'a> Item<'a, BerError> for GeneralName<'a> {
    ghost use Rattle.der_extensions.specs.GeneralNames.{GeneralName as AnyName, NameValue, name_of};
    ghost use Rattle.der_extensions.specs.Takes.{general_name_takes};

    ghost Value = { NameValue };

    ghost field = { AnyName };

    ghost view = { name_of };

    fn read(names: &mut Cursor<'a>) -> Result<GeneralName<'a>, ReadError<BerError>> {
        read_general_name(names)
    }

    ghost takes = { general_name_takes };
}

/// Reads a GeneralName: the alternative whose tag is next.
pub(crate) fn read_general_name<'a>(
    names: &mut Cursor<'a>,
) -> Result<GeneralName<'a>, ReadError<BerError>>
    ensures { ReadsField AnyName name_of Never names.old result names.new }
{
    if names.is_next(Class::ContextSpecific, Tag(0)) {
        return read_other_name(names);
    }
    if names.is_next(Class::ContextSpecific, Tag(1)) {
        return read_rfc822_name(names);
    }
    if names.is_next(Class::ContextSpecific, Tag(2)) {
        return read_dns_name(names);
    }
    if names.is_next(Class::ContextSpecific, Tag(3)) {
        return read_x400_address(names);
    }
    if names.is_next(Class::ContextSpecific, Tag(4)) {
        return read_directory_name(names);
    }
    if names.is_next(Class::ContextSpecific, Tag(5)) {
        return read_edi_party_name(names);
    }
    if names.is_next(Class::ContextSpecific, Tag(6)) {
        return read_uniform_resource_identifier(names);
    }
    if names.is_next(Class::ContextSpecific, Tag(7)) {
        return read_ip_address(names);
    }
    if names.is_next(Class::ContextSpecific, Tag(8)) {
        return read_registered_id(names);
    }
    Err(refuse_other(names))
}

/// The error for an element with a tag of no alternative.
pub(crate) fn refuse_other(names: &Cursor<'_>) -> ReadError<BerError> {
    let mut next = *names;
    match next.any() {
        Ok(any) if any.class() == Class::ContextSpecific => {
            names.refuse(BerError::unexpected_tag(None, any.tag()))
        }
        Ok(any) => names.refuse(BerError::unexpected_class(
            Some(Class::ContextSpecific),
            any.class(),
        )),
        Err(e) => e,
    }
}

fn read_other_name<'a>(names: &mut Cursor<'a>) -> Result<GeneralName<'a>, ReadError<BerError>>
    ensures { ReadsField (Chosen other_name (Required (Implicit 0 OtherNameFormat))) name_of Never
        names.old result names.new }
{
    let name = read_other(names)?;
    Ok(GeneralName::OtherName(name))
}

/// Reads an OtherName under the tag [0].
fn read_other<'a>(names: &mut Cursor<'a>) -> Result<OtherName<'a>, ReadError<BerError>>
    ensures { ReadsField (Required (Implicit 0 OtherNameFormat)) other_name_of Never names.old result names.new }
{
    let mut fields = names.open(Class::ContextSpecific, true, Tag(0))?;
    let type_id = fields.oid()?;
    let value = read_value(&mut fields)?;
    fields.end()?;
    Ok(OtherName { type_id, value })
}

/// Reads an element of any type in an explicit tag [0].
fn read_value<'a>(fields: &mut Cursor<'a>) -> Result<Any<'a>, ReadError<BerError>>
    ensures { ReadsField (Required (Explicit 0 AnyElement)) element_of Never fields.old result fields.new }
{
    let mut inside = fields.open(Class::ContextSpecific, true, Tag(0))?;
    let value = inside.any()?;
    inside.end()?;
    Ok(value)
}

fn read_rfc822_name<'a>(names: &mut Cursor<'a>) -> Result<GeneralName<'a>, ReadError<BerError>>
    ensures { ReadsField (Chosen rfc822_name (Required (Implicit 1 (Text 22)))) name_of Never
        names.old result names.new }
{
    let text = read_ia5_string(names, 1)?;
    Ok(GeneralName::Rfc822Name(text))
}

fn read_dns_name<'a>(names: &mut Cursor<'a>) -> Result<GeneralName<'a>, ReadError<BerError>>
    ensures { ReadsField (Chosen dns_name (Required (Implicit 2 (Text 22)))) name_of Never
        names.old result names.new }
{
    let text = read_ia5_string(names, 2)?;
    Ok(GeneralName::DnsName(text))
}

fn read_uniform_resource_identifier<'a>(
    names: &mut Cursor<'a>,
) -> Result<GeneralName<'a>, ReadError<BerError>>
    ensures { ReadsField (Chosen uniform_resource_identifier (Required (Implicit 6 (Text 22)))) name_of Never
        names.old result names.new }
{
    let text = read_ia5_string(names, 6)?;
    Ok(GeneralName::UniformResourceIdentifier(text))
}

/// Reads an IA5String under an implicit tag with this number.
fn read_ia5_string<'a>(names: &mut Cursor<'a>, number: u32) -> Result<&'a str, ReadError<BerError>>
    ensures { ReadsField (Required (Implicit number (Text 22))) (λ x. x.now) Never names.old result names.new }
{
    names.implicit(number).ia5_string()
}

fn read_x400_address<'a>(names: &mut Cursor<'a>) -> Result<GeneralName<'a>, ReadError<BerError>>
    ensures { ReadsField (Chosen x400_address (Required (Implicit 3 (Sequence Octets)))) name_of Never
        names.old result names.new }
{
    let content = names.open(Class::ContextSpecific, true, Tag(3))?;
    Ok(GeneralName::X400Address(content.remaining()))
}

fn read_edi_party_name<'a>(names: &mut Cursor<'a>) -> Result<GeneralName<'a>, ReadError<BerError>>
    ensures { ReadsField (Chosen edi_party_name (Required (Implicit 5 (Sequence Octets)))) name_of Never
        names.old result names.new }
{
    let content = names.open(Class::ContextSpecific, true, Tag(5))?;
    Ok(GeneralName::EdiPartyName(content.remaining()))
}

fn read_directory_name<'a>(names: &mut Cursor<'a>) -> Result<GeneralName<'a>, ReadError<BerError>>
    ensures { ReadsField (Chosen directory_name (Required (Explicit 4 (Required NameFormat)))) name_of Never
        names.old result names.new }
{
    let name = read_tagged_name(names)?;
    Ok(GeneralName::DirectoryName(name))
}

/// Reads a Name in an explicit tag [4].
fn read_tagged_name<'a>(names: &mut Cursor<'a>) -> Result<Name<'a>, ReadError<BerError>>
    ensures { ReadsField (Required (Explicit 4 (Required NameFormat))) (λ n. n.octets.now) Never
        names.old result names.new }
{
    let mut inside = names.open(Class::ContextSpecific, true, Tag(4))?;
    let name = read_name(&mut inside)?;
    inside.end()?;
    Ok(name)
}

fn read_ip_address<'a>(names: &mut Cursor<'a>) -> Result<GeneralName<'a>, ReadError<BerError>>
    ensures { ReadsField (Chosen ip_address (Required (Implicit 7 OctetString))) name_of Never
        names.old result names.new }
{
    let address = names.implicit(7).octets()?;
    Ok(GeneralName::IpAddress(address))
}

fn read_registered_id<'a>(names: &mut Cursor<'a>) -> Result<GeneralName<'a>, ReadError<BerError>>
    ensures { ReadsField (Chosen registered_id (Required (Implicit 8 IdentifierFormat))) name_of Never
        names.old result names.new }
{
    let identifier = names.implicit(8).oid()?;
    Ok(GeneralName::RegisteredId(identifier))
}
