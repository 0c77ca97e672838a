//! Calls that open and close elements, and finish the output.
ghost use Rattle.std.specs.Prelude.{◌≡◌, Result, true, false, ℕ};
ghost use Rattle.c_values.specs.Writers.{class_of, finished_length, finished_status, is_set};
ghost use Rattle.der_base.specs.declared.header.Class.{Class};
ghost use Rattle.der_writer.specs.declared.writer.WriteError.{WriteError};
ghost use Rattle.der_writer.specs.SetsOf.{ClosesSetOf};
ghost use Rattle.der_writer.specs.Written.{Closes, IsTagged, Opens, Puts, Returns};

use c_values::state::class_of;
use der_base::header::Tag;
use der_writer::{Mark, WriteError, Writer};

/// The status of a finished output.
const FINISHED: u32 = 0;

const NO_ROOM: u32 = 3;

const NOT_CLOSED: u32 = 4;

/// Opens an element of this class, constructed bit and tag number. What is put until it is closed is its content.
#[unsafe(no_mangle)]
pub extern "C" fn dm_open(
    writer: &mut Writer<'_>,
    tag_class: u8,
    constructed: u8,
    number: u32,
) -> Mark
    ensures { Opens (class_of tag_class) (is_set constructed) number result
        writer.old writer.new }
{
    writer.open(class_of(tag_class), constructed != 0, Tag(number))
}

/// Opens a SEQUENCE (X.690 8.9).
#[unsafe(no_mangle)]
pub extern "C" fn dm_open_sequence(writer: &mut Writer<'_>) -> Mark
    ensures { Opens Class.Universal true 16 result writer.old writer.new }
{
    writer.open_sequence()
}

/// Opens a SET (X.690 8.11).
#[unsafe(no_mangle)]
pub extern "C" fn dm_open_set(writer: &mut Writer<'_>) -> Mark
    ensures { Opens Class.Universal true 17 result writer.old writer.new }
{
    writer.open_set()
}

/// Opens an OCTET STRING that contains elements (X.690 8.7).
#[unsafe(no_mangle)]
pub extern "C" fn dm_open_octet_string(writer: &mut Writer<'_>) -> Mark
    ensures { Opens Class.Universal false 4 result writer.old writer.new }
{
    writer.open_octet_string()
}

/// Opens a context-specific element: an explicit tag around what is put (X.690 8.14.2), or a SEQUENCE or SET with an
/// implicit tag (8.14.3).
#[unsafe(no_mangle)]
pub extern "C" fn dm_open_tagged(writer: &mut Writer<'_>, number: u32) -> Mark
    ensures { Opens Class.ContextSpecific true number result writer.old writer.new }
{
    writer.open_tagged(number)
}

/// Closes an element. Elements opened in it must be closed first; otherwise nothing is closed, and `dm_finish` returns
/// 4.
#[unsafe(no_mangle)]
pub extern "C" fn dm_close(writer: &mut Writer<'_>, mark: Mark)
    ensures { Closes mark writer.old writer.new }
{
    writer.close(mark);
}

/// Closes a SET OF, as `dm_close`, and sorts its elements in the buffer (X.690 11.6).
#[unsafe(no_mangle)]
pub extern "C" fn dm_close_set_of(writer: &mut Writer<'_>, mark: Mark)
    ensures { ClosesSetOf mark writer.old writer.new }
{
    writer.close_set_of(mark);
}

/// Gives the next element, which must be primitive, an implicit tag: this class and number instead of its type's (X.690
/// 8.14.3).
#[unsafe(no_mangle)]
pub extern "C" fn dm_implicit(writer: &mut Writer<'_>, tag_class: u8, number: u32)
    ensures { IsTagged (class_of tag_class) number writer.old writer.new }
{
    let _ = writer.implicit_of(class_of(tag_class), number);
}

/// Puts encoded DER elements as they are.
#[unsafe(no_mangle)]
pub extern "C" fn dm_put_elements(writer: &mut Writer<'_>, octets: &[u8])
    ensures { Puts octets.now writer.old writer.new }
{
    writer.put_elements(octets);
}

/// Returns 0 and the number of octets, with which the buffer begins. If the buffer is too small: 3 and the number that
/// is needed. If an element is open: 4 and 0.
#[unsafe(no_mangle)]
pub extern "C" fn dm_finish(writer: &Writer<'_>, length: &mut usize) -> u32
    ensures { (found : Result ℕ WriteError) × Returns writer.now found
        × (length.new ≡ finished_length found) × (result ≡ finished_status found) }
{
    match writer.finished() {
        Ok(count) => {
            *length = count;
            FINISHED
        }
        Err(WriteError::NoRoom(needed)) => {
            *length = needed;
            NO_ROOM
        }
        Err(WriteError::NotClosed) => {
            *length = 0;
            NOT_CLOSED
        }
    }
}
