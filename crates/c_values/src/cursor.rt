//! A cursor of der_cursor for C: reads the fields of an input, one after another.
ghost use Rattle.std.specs.Prelude.{◌≡◌};
ghost use Rattle.c_values.specs.Cursors.{Continues, ContinuesEnumerated, Finishes, GoesOn, IsSame, moved_fault};
ghost use Rattle.c_values.specs.Cursors.{rules_in};

use crate::fault::{DmFault, field_fault, no_fault};
use crate::state::implicit_of;
use der_base::error::BerError;
use der_base::header::{Class, Tag};
use der_base::rules::Rules;
use der_cursor::{Cursor, ReadError};

/// The octets, of the input or of an element's content, that aren't read yet.
#[repr(C)]
#[derive(Clone, Copy)]
pub struct DmCursor<'a> {
    /// The octets. In C these are two fields, a pointer and the length.
    pub left: &'a [u8],
    /// The number of octets of the input before them.
    pub offset: usize,
    /// 0 to read by BER, else DER.
    pub rules: u32,
    /// 1 if they are the content of an element, else 0.
    pub is_inside: u32,
    /// The class of the next element's implicit tag, from 1 to 4; 0 if there is none.
    pub implicit: u32,
    /// The number of that tag.
    pub number: u32,
}

/// The number of the error if an element runs past the end of its list.
const PAST_END: u32 = 17;

/// A cursor of der_cursor over the octets left, at offset 0, with this implicit tag.
pub fn resume<'a>(cursor: &DmCursor<'a>) -> Cursor<'a>
    ensures { Continues cursor.now result }
{
    let mut fields = Cursor::by(rules_of(cursor.rules), cursor.left);
    if let Some((class, tag)) = implicit_of(cursor.implicit, cursor.number) {
        let _ = fields.implicit_of(class, tag.0);
    }
    fields
}

/// The same for an ENUMERATED, which is read as an INTEGER with its tag (X.690 8.4).
pub fn resume_enumerated<'a>(cursor: &DmCursor<'a>) -> Cursor<'a>
    ensures { ContinuesEnumerated cursor.now result }
{
    let mut fields = resume(cursor);
    if implicit_of(cursor.implicit, cursor.number).is_none() {
        let _ = fields.implicit_of(Class::Universal, Tag::Enumerated.0);
    }
    fields
}

/// The rules with this number.
fn rules_of(number: u32) -> Rules
    ensures { result ≡ rules_in number }
{
    match number {
        0 => Rules::Ber,
        _ => Rules::Der,
    }
}

/// Moves to where `after` is.
pub(crate) fn advance<'a>(cursor: &mut DmCursor<'a>, after: Cursor<'a>)
    ensures { GoesOn cursor.old after.entry cursor.new }
{
    let rest = after.remaining();
    let read = cursor.left.len().saturating_sub(rest.len());
    cursor.offset = cursor.offset.saturating_add(read);
    cursor.left = rest;
    cursor.implicit = 0;
}

/// The fault of the next element. In a list, a cut element is an error, because no more octets can follow.
pub(crate) fn moved_fault(cursor: &DmCursor<'_>, e: ReadError<BerError>) -> DmFault
    ensures { result ≡ moved_fault cursor.now e }
{
    let fault = field_fault(0, e);
    let offset = cursor.offset.saturating_add(fault.offset);
    if cursor.is_inside == 0 {
        return DmFault { offset, ..fault };
    }
    let is_cut = fault.status == 2;
    DmFault {
        offset,
        list_end: cursor.offset.saturating_add(cursor.left.len()),
        needed: fault.needed,
        status: 1,
        error: if is_cut { PAST_END } else { fault.error },
        field: 0,
        is_in_list: 1,
    }
}

/// Writes the value and moves after it; or returns the fault, and the cursor stays.
pub fn finish<'a, V: Copy>(
    cursor: &mut DmCursor<'a>,
    after: Cursor<'a>,
    found: Result<V, ReadError<BerError>>,
    value: &mut V,
) -> DmFault
    ensures { Finishes IsSame cursor.old after.entry found cursor.new value.old value.new result }
{
    match found {
        Ok(found) => {
            *value = found;
            advance(cursor, after);
            no_fault()
        }
        Err(e) => moved_fault(cursor, e),
    }
}
