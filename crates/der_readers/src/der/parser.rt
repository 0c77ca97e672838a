//! The full reader of DER.
ghost use Rattle.std.specs.Prelude.{◌<◌, IfOk, length};
ghost use Rattle.der_object.specs.Counting.{CountsJustObjects, CountsWithinOctets};
ghost use Rattle.der_readers.specs.Der.DerReading.{AnswersDer, IsStableDer};

use crate::der::reader::read_element;
use der_base::MAX_RECURSION;
use der_base::header::HeaderCount;
use der_object::BerResult;
use std::alloc::Global;

/// Reads one object in DER to the depth `MAX_RECURSION`, as `parse_der_recursive`.
///
/// ```
/// let (_rest, object) = parse_der(alloc, input)?;
/// match &object.content {
///     BerObjectContent::Sequence(items) => Ok(Found::List(items.len())),
///     BerObjectContent::Integer(_) => Ok(Found::Number(object.as_i64()?)),
///     _ => Ok(Found::Other(object.tag())),
/// }
/// ```
pub fn parse_der<'a>(alloc: Global, i: &'a [u8]) -> BerResult<'a>
    ensures exactly { AnswersDer MAX_RECURSION i.now result }
    ensures stable { IsStableDer MAX_RECURSION i.now result }
    ensures shorter { IfOk result (λ x. length x.0.now < length i.now) }
{
    parse_der_recursive(alloc, i, MAX_RECURSION)
}

/// Reads one object in DER, and returns the rest of the input with it. Unless memory runs out, it returns Ok iff the
/// input begins with the DER encoding of an object, within `max_depth` levels and `MAX_OBJECT_SIZE` content octets.
/// Each header has the length and the identifier octets as read.
///
/// Errors and Incomplete, in this order:
/// - BerMaxDepth at depth 0;
/// - those of `der_read_element_header`;
/// - InvalidLength above `MAX_OBJECT_SIZE`;
/// - Incomplete if the input ends within the content: with the whole length for class Universal, and with the number of
///   missing octets for others;
/// - ConstructExpected for a primitive SEQUENCE or SET, and the constraint Constructed for another type that is
///   constructed;
/// - those of the type;
/// - those of the first item that is rejected, read at one depth less. An item that runs past the end of its list is
///   the Error Incomplete.
///
/// OutOfMemory only at depth 2 and more, if the input begins with a whole list that has items.
pub fn parse_der_recursive<'a>(alloc: Global, i: &'a [u8], max_depth: usize) -> BerResult<'a>
    ensures exactly { AnswersDer max_depth i.now result }
    ensures stable { IsStableDer max_depth i.now result }
    ensures shorter { IfOk result (λ x. length x.0.now < length i.now) }
{
    let mut count = HeaderCount::new();
    parse_der_counted(alloc, i, max_depth, &mut count)
}

/// Reads as `parse_der_recursive`, and counts the headers that are read. An Ok counts one for the object and one for
/// each item at any depth. Any result counts at most one for each two octets of the input, and one more. The count
/// stops at its greatest value.
pub fn parse_der_counted<'a>(
    alloc: Global,
    i: &'a [u8],
    max_depth: usize,
    count: &mut HeaderCount,
) -> BerResult<'a>
    ensures exactly { AnswersDer max_depth i.now result }
    ensures stable { IsStableDer max_depth i.now result }
    ensures shorter { IfOk result (λ x. length x.0.now < length i.now) }
    ensures counted { CountsJustObjects result count.old count.new }
    ensures bounded { CountsWithinOctets i.now result count.old count.new }
{
    read_element(alloc, i, max_depth, count)
}
