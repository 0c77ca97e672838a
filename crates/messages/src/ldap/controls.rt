//! Optional fields: the controls of a message (RFC 4511 4.1.11) and the referral of a result (4.1.10).
ghost use Rattle.std.specs.Option.{option_map};
ghost use Rattle.der_cursor.specs.Formats.{Each, NoMemory, OptionalTagged, ReadsField, Required};
ghost use Rattle.messages.specs.Ldap.Messages.{Control as ControlFormat, Texts, control_of, controls_of, texts_of};

use crate::ldap::items::{pass_over, read_text};
use crate::ldap::message::Control;
use der_base::error::BerError;
use der_cursor::{Cursor, ReadError};
use std::alloc::Global;

/// The result of reading a field.
type Read<T> = Result<T, ReadError<BerError>>;

/// Reads the controls of a message, if they are next.
pub fn read_controls<'a>(alloc: Global, fields: &mut Cursor<'a>) -> Read<Option<Vec<Control<'a>>>>
    ensures { ReadsField (OptionalTagged 0 (Each (Required ControlFormat)))
        (option_map (λ x. controls_of x.items)) NoMemory fields.old result fields.new }
{
    let inside = fields.open_tagged(0)?;
    match inside {
        None => Ok(None),
        Some(list) => Ok(Some(list.read_all(alloc, read_control)?)),
    }
}

/// Reads a referral, if it is next.
pub fn read_referral<'a>(alloc: Global, fields: &mut Cursor<'a>) -> Read<Option<Vec<&'a [u8]>>>
    ensures { ReadsField (OptionalTagged 3 Texts) (option_map (λ x. texts_of x.items)) NoMemory
        fields.old result fields.new }
{
    let inside = fields.open_tagged(3)?;
    match inside {
        None => Ok(None),
        Some(list) => Ok(Some(list.read_all(alloc, read_text)?)),
    }
}

fn read_control<'a>(alloc: Global, list: &mut Cursor<'a>) -> Read<Control<'a>>
    ensures { ReadsField (Required ControlFormat) control_of NoMemory list.old result list.new }
{
    let mut fields = list.open_sequence()?;
    let kind = fields.octets()?;
    let criticality = fields.optional_boolean()?;
    let value = fields.optional_octets()?;
    pass_over(alloc, fields)?;
    Ok(Control {
        kind,
        criticality,
        value,
    })
}
