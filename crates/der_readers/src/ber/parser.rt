//! The full reader of BER.
ghost use Rattle.std.specs.Prelude.{◌<◌, IfOk, length};
ghost use Rattle.der_base.specs.Any.{AnswersAny};
ghost use Rattle.der_readers.specs.Ber.BerReading.{AnswersBer, AnswersTagNumber};
ghost use Rattle.der_readers.specs.Ber.BerReading.{IsStableBer};
ghost use Rattle.der_object.specs.Counting.{CountsObjects, CountsWithinOctets};

use crate::ber::reader::{read_element, read_element_with_tag};
use der_base::MAX_RECURSION;
use der_base::any::Any;
use der_base::error::{BerError, IResult};
use der_base::header::{HeaderCount, Tag};
use der_object::BerResult;
use std::alloc::Global;

/// Reads one object in BER to the depth `MAX_RECURSION`, as `parse_ber_recursive`.
///
/// ```
/// match parse_ber(alloc, input) {
///     Err(Err::Incomplete(Needed::Size(n))) => Some(n), // wait for n more octets
///     _ => None,
/// }
/// ```
pub fn parse_ber<'a>(alloc: Global, i: &'a [u8]) -> BerResult<'a>
    ensures exactly { AnswersBer MAX_RECURSION i.now result }
    ensures stable { IsStableBer MAX_RECURSION i.now result }
    ensures shorter { IfOk result (λ x. length x.0.now < length i.now) }
{
    parse_ber_recursive(alloc, i, MAX_RECURSION)
}

/// Reads one object in BER, and returns the rest of the input with it. Unless memory runs out, it returns Ok iff the
/// input begins with a BER encoding of an object, within `max_depth` levels (X.690 8.1.3). At most 49 indefinite
/// lengths may be nested. Each header has the length and the identifier octets as read.
///
/// Errors, in this order:
/// - BerMaxDepth at depth 0;
/// - those of `Any::from_ber`: of the header and, for an indefinite length, of the headers inside;
/// - ConstructExpected for a primitive SEQUENCE or SET;
/// - those of the type;
/// - those of the first item that is rejected, read at one depth less. An item that runs past the end of its list is
///   the Error `BerError::Incomplete`, since more input can't complete it.
///
/// Incomplete if the input ends within the element and shows no error, with the number of missing octets.
///
/// OutOfMemory only if the input begins
/// - with a whole list that has items, at depth 2 and more;
/// - with a header of indefinite length, at depth 1 and more.
pub fn parse_ber_recursive<'a>(alloc: Global, i: &'a [u8], max_depth: usize) -> BerResult<'a>
    ensures exactly { AnswersBer max_depth i.now result }
    ensures stable { IsStableBer max_depth i.now result }
    ensures shorter { IfOk result (λ x. length x.0.now < length i.now) }
{
    let mut count = HeaderCount::new();
    parse_ber_counted(alloc, i, max_depth, &mut count)
}

/// As `parse_ber_recursive`.
pub fn parse_ber_any_r<'a>(alloc: Global, i: &'a [u8], max_depth: usize) -> BerResult<'a>
    ensures exactly { AnswersBer max_depth i.now result }
    ensures stable { IsStableBer max_depth i.now result }
    ensures shorter { IfOk result (λ x. length x.0.now < length i.now) }
{
    parse_ber_recursive(alloc, i, max_depth)
}

/// `parse_ber_recursive` for an element of this tag number, of any class. Another number is UnexpectedTag, after the
/// errors of the header and of framing, and before those of the content. Memory can run out only for a list of this
/// number that has items, or for an indefinite length.
pub fn parse_ber_any_with_tag_r<'a>(
    alloc: Global,
    i: &'a [u8],
    tag: Tag,
    max_depth: usize,
) -> BerResult<'a>
    ensures exactly { AnswersTagNumber tag.0 max_depth i.now result }
    ensures shorter { IfOk result (λ x. length x.0.now < length i.now) }
{
    read_element_with_tag(alloc, i, tag, max_depth, &mut HeaderCount::new())
}

/// Reads an element without its content, as `Any::from_ber`.
pub fn parse_ber_any<'a>(i: &'a [u8]) -> IResult<&'a [u8], Any<'a>, BerError>
    ensures { AnswersAny i.now result }
{
    Any::from_ber(i)
}

/// Reads as `parse_ber_recursive`, and counts the headers that are read, including end-of-contents octets. It counts at
/// least one for each object that was read. It counts at most one for each two octets, or one more if it returns no
/// object. The count stops at its greatest value.
pub fn parse_ber_counted<'a>(
    alloc: Global,
    i: &'a [u8],
    max_depth: usize,
    count: &mut HeaderCount,
) -> BerResult<'a>
    ensures exactly { AnswersBer max_depth i.now result }
    ensures stable { IsStableBer max_depth i.now result }
    ensures shorter { IfOk result (λ x. length x.0.now < length i.now) }
    ensures counted { CountsObjects result count.old count.new }
    ensures bounded { CountsWithinOctets i.now result count.old count.new }
{
    read_element(alloc, i, max_depth, count)
}
