//! Elements of any type for C.
ghost use Rattle.std.specs.Option.{option_map};
ghost use Rattle.c_values.specs.AnyElements.{HasAny, HasAnyOrNone};
ghost use Rattle.der_cursor.specs.Elements.{element_of};

use crate::element::{bit, class_number};
use der_base::any::Any;

/// An element of any type. Its content isn't read.
#[repr(C)]
#[derive(Clone, Copy)]
pub struct DmAny<'a> {
    /// Its content octets.
    pub content: &'a [u8],
    /// The tag number.
    pub number: u32,
    /// The class, from 0 to 3.
    pub tag_class: u8,
    /// 1 if constructed, else 0.
    pub constructed: u8,
    /// 0.
    pub reserved: u16,
}

/// The C struct of an element.
pub fn any_fields<'a>(found: &Any<'a>) -> DmAny<'a>
    ensures { HasAny (element_of found.now) result }
{
    DmAny {
        content: found.bytes,
        number: found.header.tag().0,
        tag_class: class_number(found.header.class()),
        constructed: bit(found.header.constructed()),
        reserved: 0,
    }
}

/// The C struct of an optional element.
pub fn optional_any<'a>(found: Option<Any<'a>>) -> DmAny<'a>
    ensures { HasAnyOrNone (option_map element_of found.entry) result }
{
    match found {
        Some(found) => any_fields(&found),
        None => DmAny {
            content: &[],
            number: 0,
            tag_class: 0,
            constructed: 0,
            reserved: 0,
        },
    }
}
