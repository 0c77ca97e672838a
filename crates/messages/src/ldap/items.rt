//! Items of lists, and skipped fields (RFC 4511 4.1).
ghost use Rattle.der_cursor.specs.Formats.{AnyElement, Each, Never, NoMemory, OctetString, Others, Passed};
ghost use Rattle.der_cursor.specs.Formats.{ReadsContent, ReadsField, Required, Sequence, Set};
ghost use Rattle.messages.specs.Ldap.Messages.{Attribute as AttributeFormat, Change as ChangeFormat, Texts};
ghost use Rattle.messages.specs.Ldap.Messages.{attribute_of, attributes_of, change_of, changes_of, texts_of};
ghost use Rattle.messages.specs.Ldap.Words.{AnyChoice};

use crate::ldap::message::{Attribute, Change};
use der_base::error::BerError;
use der_base::header::Class;
use der_cursor::{Cursor, ReadError};
use std::alloc::Global;

/// The result of reading a field.
type Read<T> = Result<T, ReadError<BerError>>;

pub fn read_text<'a>(_alloc: Global, list: &mut Cursor<'a>) -> Read<&'a [u8]>
    ensures { ReadsField (Required OctetString) (λ x. x.now) Never list.old result list.new }
{
    list.octets()
}

/// Reads a list of texts.
pub fn read_texts<'a>(alloc: Global, list: &mut Cursor<'a>) -> Read<Vec<&'a [u8]>>
    ensures { ReadsField (Required (Sequence Texts)) (λ x. texts_of x.items) NoMemory list.old result list.new }
{
    list.open_sequence()?.read_all(alloc, read_text)
}

/// Reads the values of an attribute.
fn read_values<'a>(alloc: Global, list: &mut Cursor<'a>) -> Read<Vec<&'a [u8]>>
    ensures { ReadsField (Required (Set Texts)) (λ x. texts_of x.items) NoMemory list.old result list.new }
{
    list.open_set()?.read_all(alloc, read_text)
}

/// Reads the attributes of an entry.
pub fn read_attributes<'a>(alloc: Global, list: &mut Cursor<'a>) -> Read<Vec<Attribute<'a>>>
    ensures { ReadsField (Required (Sequence (Each (Required AttributeFormat)))) (λ x. attributes_of x.items) NoMemory
        list.old result list.new }
{
    list.open_sequence()?.read_all(alloc, read_attribute)
}

/// Reads the changes of an entry.
pub fn read_changes<'a>(alloc: Global, list: &mut Cursor<'a>) -> Read<Vec<Change<'a>>>
    ensures { ReadsField (Required (Sequence (Each (Required ChangeFormat)))) (λ x. changes_of x.items) NoMemory
        list.old result list.new }
{
    list.open_sequence()?.read_all(alloc, read_change)
}

/// Reads an attribute and its values (RFC 4511 4.1.7).
fn read_attribute<'a>(alloc: Global, list: &mut Cursor<'a>) -> Read<Attribute<'a>>
    ensures { ReadsField (Required AttributeFormat) attribute_of NoMemory list.old result list.new }
{
    let mut fields = list.open_sequence()?;
    let name = fields.octets()?;
    let values = read_values(alloc, &mut fields)?;
    pass_over(alloc, fields)?;
    Ok(Attribute { name, values })
}

/// Reads a change of an attribute (RFC 4511 4.6).
fn read_change<'a>(alloc: Global, list: &mut Cursor<'a>) -> Read<Change<'a>>
    ensures { ReadsField (Required ChangeFormat) change_of NoMemory list.old result list.new }
{
    let mut fields = list.open_sequence()?;
    let operation = fields.enumerated()?;
    let attribute = read_attribute(alloc, &mut fields)?;
    pass_over(alloc, fields)?;
    Ok(Change {
        operation,
        attribute,
    })
}

/// Skips the authentication of a client (RFC 4511 4.2), a context-specific element.
pub fn read_choice(list: &mut Cursor<'_>) -> Read<()>
    ensures { ReadsField AnyChoice (λ x. x) Never list.old result list.new }
{
    let before = *list;
    let element = list.any()?;
    let class = element.header.assert_class(Class::ContextSpecific);
    class.map_err(|e| before.refuse(e))
}

/// Skips the remaining elements.
pub fn pass_over(alloc: Global, list: Cursor<'_>) -> Read<()>
    ensures { ReadsContent Others (λ x. x) NoMemory list.entry result }
{
    list.read_all(alloc, pass_element)?;
    Ok(())
}

fn pass_element(_alloc: Global, list: &mut Cursor<'_>) -> Read<()>
    ensures { ReadsField (Passed AnyElement) (λ x. x) Never list.old result list.new }
{
    list.any()?;
    Ok(())
}
