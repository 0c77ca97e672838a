//! Contents read without their header: the caller gives the header, or the tag number, the length and the constructed
//! bit of a universal type, or an element that was read before.
ghost use Rattle.std.specs.Prelude.{◌≡◌};
ghost use Rattle.der_base.specs.declared.header.Class.{Class};
ghost use Rattle.der_base.specs.declared.rules.Rules.{Rules};
ghost use Rattle.der_base.specs.Answer.{MatchAnswer};
ghost use Rattle.der_base.specs.Header.{class_of, is_constructed, number_of, length_of};
ghost use Rattle.der_readers.specs.Types.Inner.Framing.{MayFollow};
ghost use Rattle.der_readers.specs.Types.TypedReading.{FramesContent, FrameRefuses, FrameLacks};
ghost use Rattle.der_readers.specs.Types.TypedReading.{ReadsContentOf, ReadsContentAs, ReadingRefuses, ReadingNeedsMemory};
ghost use Rattle.der_readers.specs.Types.TypedReading.{AnswersContentAs, AnswersContentOf, AnswersObjectOf};
ghost use Rattle.der_readers.specs.Types.TypedReading.{ReadsObjectOf, ObjectOfRefuses, ObjectOfNeedsMemory};

use crate::ber::reader::read_behind;
use crate::der::reader::{lacking, read_object};
use der_base::any::{Any, ber_read_content};
use der_base::error::{BerError, DerConstraint, Err, IResult, Needed};
use der_base::header::{Class, Header, HeaderCount, Length, Tag};
use der_base::rules::Rules;
use der_base::spans::ber_read_definite;
use der_base::{MAX_OBJECT_SIZE, MAX_RECURSION};
use der_object::{BerObject, BerObjectContent, BerResult};
use std::alloc::Global;

/// Checks the length and the constructed bit of a header, the depth, and that a definite content is whole.
#[inline(always)]
fn check_length(
    rules: Rules,
    i: &[u8],
    header: &Header<'_>,
    max_depth: usize,
) -> Result<(), Err<BerError>>
    ensures { let h = header.now in MatchAnswer result
        (λ _. MayFollow rules (length_of h) (is_constructed h) max_depth i.now)
        (FrameRefuses rules (length_of h) (is_constructed h) max_depth i.now)
        (FrameLacks rules (class_of h) (length_of h) (is_constructed h) max_depth i.now)
        ⊥ }
{
    let error = match (header.length(), rules) {
        (Length::Definite(n), _) if n > MAX_OBJECT_SIZE => BerError::InvalidLength,
        (Length::Definite(n), _) if i.len() < n => {
            return Err(Err::Incomplete(Needed::Size(lacking(header, n, i))));
        }
        (Length::Indefinite, Rules::Der) => {
            BerError::DerConstraintFailed(DerConstraint::IndefiniteLength)
        }
        _ if max_depth == 0 => BerError::BerMaxDepth,
        (Length::Indefinite, _) if !header.constructed() => BerError::ConstructExpected,
        _ => return Ok(()),
    };
    Err(Err::Error(error))
}

/// The content octets after a header, and what follows the element.
#[inline(always)]
pub(crate) fn frame_content<'a>(
    rules: Rules,
    i: &'a [u8],
    header: &Header<'_>,
    max_depth: usize,
) -> IResult<&'a [u8], &'a [u8], BerError>
    ensures { let h = header.now in MatchAnswer result
        (λ x. FramesContent rules (length_of h) (is_constructed h) max_depth i.now x.1.now x.0.now)
        (FrameRefuses rules (length_of h) (is_constructed h) max_depth i.now)
        (FrameLacks rules (class_of h) (length_of h) (is_constructed h) max_depth i.now)
        ⊥ }
{
    check_length(rules, i, header, max_depth)?;
    match header.length() {
        Length::Definite(size) => ber_read_definite(i, size),
        length => ber_read_content(i, length, max_depth.min(MAX_RECURSION)),
    }
}

/// The object with this header and the content after it, and what follows the element.
#[inline(always)]
fn read_content_of<'a>(
    rules: Rules,
    alloc: Global,
    i: &'a [u8],
    header: Header<'a>,
    max_depth: usize,
) -> BerResult<'a>
    ensures { let h = header.entry in MatchAnswer result
        (λ x. ReadsContentOf rules h max_depth i.now x.1 x.0.now)
        (ReadingRefuses rules (class_of h) (number_of h) (length_of h) (is_constructed h) max_depth i.now)
        (FrameLacks rules (class_of h) (length_of h) (is_constructed h) max_depth i.now)
        (ReadingNeedsMemory rules (class_of h) (number_of h) (length_of h) (is_constructed h) max_depth i.now) }
{
    let mut count = HeaderCount::new();
    match rules {
        Rules::Ber => {
            check_length(rules, i, &header, max_depth)?;
            let budget = max_depth.min(MAX_RECURSION);
            read_behind(alloc, header, i, budget, max_depth, &mut count)
        }
        Rules::Der => {
            let (rest, octets) = frame_content(rules, i, &header, max_depth)?;
            read_object(alloc, header, octets, rest, max_depth, &mut count)
        }
    }
}

/// The content of the universal type with this number, and what follows the element.
#[inline(always)]
fn read_content_as<'a>(
    rules: Rules,
    alloc: Global,
    i: &'a [u8],
    tag: Tag,
    length: Length,
    constructed: bool,
    max_depth: usize,
) -> BerResult<'a, BerObjectContent<'a>>
    ensures { MatchAnswer result
        (λ x. ReadsContentAs rules tag.0 length constructed max_depth i.now x.1 x.0.now)
        (ReadingRefuses rules Class.Universal tag.0 length constructed max_depth i.now)
        (FrameLacks rules Class.Universal length constructed max_depth i.now)
        (ReadingNeedsMemory rules Class.Universal tag.0 length constructed max_depth i.now) }
{
    let header = Header::new(Class::Universal, constructed, tag, length);
    let (rest, object) = read_content_of(rules, alloc, i, header, max_depth)?;
    Ok((rest, object.content))
}

/// `ber_read_element_content_as` or `der_read_element_content_as`, by the rules.
#[inline(always)]
pub(crate) fn read_element_content_as<'a>(
    rules: Rules,
    alloc: Global,
    i: &'a [u8],
    tag: Tag,
    length: Length,
    constructed: bool,
    max_depth: usize,
) -> BerResult<'a, BerObjectContent<'a>>
    ensures { AnswersContentAs rules tag.0 length constructed max_depth i.now result }
{
    read_content_as(rules, alloc, i, tag, length, constructed, max_depth)
}

/// Reads the content of a universal type after its header, and returns it with what follows the element. The caller
/// gives the header's tag number, length and constructed bit. The content octets are those of `ber_read_content`, with
/// indefinite lengths nested less deep than `max_depth` and than `MAX_RECURSION`. They are read as
/// `parse_ber_recursive` reads an object of class Universal to this depth. A tag number without a type gives `Unknown`,
/// with a header of class Universal and no raw tag.
///
/// Errors and Incomplete, in this order:
/// - InvalidLength for a definite length above `MAX_OBJECT_SIZE`;
/// - Incomplete with the whole length, if fewer octets follow than a definite length;
/// - BerMaxDepth at depth 0;
/// - ConstructExpected for an indefinite length without the constructed bit;
/// - the errors of framing, or Incomplete with the number of octets that the elements of an indefinite length lack;
/// - those of the type, and of the first item that is rejected.
///
/// OutOfMemory only for an indefinite length, or at depth 2 and more for a list that has items.
pub fn ber_read_element_content_as<'a>(
    alloc: Global,
    i: &'a [u8],
    tag: Tag,
    length: Length,
    constructed: bool,
    max_depth: usize,
) -> BerResult<'a, BerObjectContent<'a>>
    ensures { AnswersContentAs Rules.Ber tag.0 length constructed max_depth i.now result }
{
    read_element_content_as(Rules::Ber, alloc, i, tag, length, constructed, max_depth)
}

/// Reads the content of a universal type by DER, as `ber_read_element_content_as` does by BER.
///
/// Errors and Incomplete, in this order:
/// - the constraint IndefiniteLength;
/// - InvalidLength for a length above `MAX_OBJECT_SIZE`;
/// - Incomplete with the whole length, if fewer octets are left;
/// - BerMaxDepth at depth 0;
/// - ConstructExpected for a primitive SEQUENCE or SET, the constraint Constructed for another constructed type;
/// - those of the type, and of the first item that is rejected.
///
/// OutOfMemory only at depth 2 and more, for a list that has items.
pub fn der_read_element_content_as<'a>(
    alloc: Global,
    i: &'a [u8],
    tag: Tag,
    length: Length,
    constructed: bool,
    max_depth: usize,
) -> BerResult<'a, BerObjectContent<'a>>
    ensures { AnswersContentAs Rules.Der tag.0 length constructed max_depth i.now result }
{
    read_element_content_as(Rules::Der, alloc, i, tag, length, constructed, max_depth)
}

/// Reads the content of an object with the given header, and returns the rest after the element with the object, which
/// keeps the header. The content is read as by `parse_der`, to the depth `MAX_RECURSION`. A class other than Universal,
/// and a number whose content isn't read, give Unknown.
///
/// Errors are those of `der_read_element_content_as`. Incomplete if fewer octets are left than the length: with the
/// whole length for class Universal, with the number of missing octets for others. OutOfMemory only for a list that has
/// items.
pub fn der_read_element_content<'a>(alloc: Global, i: &'a [u8], hdr: Header<'a>) -> BerResult<'a>
    ensures { AnswersContentOf Rules.Der hdr.entry MAX_RECURSION i.now result }
{
    read_content_of(Rules::Der, alloc, i, hdr, MAX_RECURSION)
}

/// The object of an element that was read before.
fn object_from_any<'a>(alloc: Global, any: Any<'a>) -> Result<BerObject<'a>, Err<BerError>>
    ensures { MatchAnswer result
        (λ o. ReadsObjectOf any.entry o)
        (ObjectOfRefuses any.entry)
        (λ _. ⊥)
        (ObjectOfNeedsMemory any.entry) }
{
    let header = any.header;
    let (tag, constructed) = (header.tag(), header.constructed());
    let length = Length::Definite(any.bytes.len());
    let (_, content) = read_content_as(
        Rules::Ber,
        alloc,
        any.bytes,
        tag,
        length,
        constructed,
        MAX_RECURSION,
    )?;
    Ok(BerObject::from_header_and_content(header, content))
}

/// Reads all octets of an element as the content of the universal type of its tag number, and returns the object with
/// the element's header. They are read as by `ber_read_element_content_as`, with their number as the definite length,
/// to the depth `MAX_RECURSION`. The tag number and the constructed bit are those of the header. Its class and length
/// are ignored.
///
/// Errors are those of `ber_read_element_content_as`. It is never Incomplete. OutOfMemory only for a list that has
/// items.
pub fn ber_object_from_any<'a>(alloc: Global, any: Any<'a>) -> Result<BerObject<'a>, Err<BerError>>
    ensures { AnswersObjectOf any.entry result }
{
    object_from_any(alloc, any)
}

/// A reader of contents of one universal type. It borrows the headers.
#[derive(Clone, Copy)]
pub struct ContentReader {
    /// The rules to read by.
    pub rules: Rules,
    /// The tag number of the type.
    pub tag: Tag,
    alloc: Global,
}

/// The reader of contents of this universal type by BER. It borrows the headers.
pub fn parse_ber_content(alloc: Global, tag: Tag) -> ContentReader
    ensures { (result.rules ≡ Rules.Ber) × (result.tag ≡ tag) }
{
    ContentReader::new(Rules::Ber, tag, alloc)
}

/// The reader of contents of this universal type by DER. It borrows the headers.
pub fn parse_der_content(alloc: Global, tag: Tag) -> ContentReader
    ensures { (result.rules ≡ Rules.Der) × (result.tag ≡ tag) }
{
    ContentReader::new(Rules::Der, tag, alloc)
}

impl ContentReader {
    /// The parser that keeps these.
    fn new(rules: Rules, tag: Tag, alloc: Global) -> ContentReader
        ensures { (result.rules ≡ rules) × (result.tag ≡ tag) }
    {
        ContentReader { rules, tag, alloc }
    }

    /// Reads the content after a header as `ber_read_element_content_as` or `der_read_element_content_as`, with the
    /// header's length and constructed bit. The header's class and tag number are ignored.
    pub fn parse<'a>(
        &self,
        i: &'a [u8],
        header: &Header<'_>,
        max_depth: usize,
    ) -> BerResult<'a, BerObjectContent<'a>>
        ensures { let h = header.now in
            AnswersContentAs self.now.rules self.now.tag.0 (length_of h) (is_constructed h) max_depth i.now result }
    {
        let (alloc, tag) = (self.alloc, self.tag);
        let (length, constructed) = (header.length(), header.constructed());
        match self.rules {
            Rules::Ber => {
                return ber_read_element_content_as(alloc, i, tag, length, constructed, max_depth);
            }
            Rules::Der => {
                return der_read_element_content_as(alloc, i, tag, length, constructed, max_depth);
            }
        }
    }
}

/// A reader of contents of one universal type. It takes the headers by value.
#[derive(Clone, Copy)]
pub struct ContentReader2 {
    /// The rules to read by.
    pub rules: Rules,
    /// The tag number of the type.
    pub tag: Tag,
    alloc: Global,
}

/// The reader of contents of this universal type by BER. It takes the headers by value.
pub fn parse_ber_content2(alloc: Global, tag: Tag) -> ContentReader2
    ensures { (result.rules ≡ Rules.Ber) × (result.tag ≡ tag) }
{
    ContentReader2::new(Rules::Ber, tag, alloc)
}

/// The reader of contents of this universal type by DER. It takes the headers by value.
pub fn parse_der_content2(alloc: Global, tag: Tag) -> ContentReader2
    ensures { (result.rules ≡ Rules.Der) × (result.tag ≡ tag) }
{
    ContentReader2::new(Rules::Der, tag, alloc)
}

impl ContentReader2 {
    /// The parser that keeps these.
    fn new(rules: Rules, tag: Tag, alloc: Global) -> ContentReader2
        ensures { (result.rules ≡ rules) × (result.tag ≡ tag) }
    {
        ContentReader2 { rules, tag, alloc }
    }

    /// Reads as `ContentReader::parse`.
    pub fn parse<'a>(
        &self,
        i: &'a [u8],
        header: Header<'_>,
        max_depth: usize,
    ) -> BerResult<'a, BerObjectContent<'a>>
        ensures { let h = header.entry in
            AnswersContentAs self.now.rules self.now.tag.0 (length_of h) (is_constructed h) max_depth i.now result }
    {
        let reader = ContentReader {
            rules: self.rules,
            tag: self.tag,
            alloc: self.alloc,
        };
        reader.parse(i, &header, max_depth)
    }
}
