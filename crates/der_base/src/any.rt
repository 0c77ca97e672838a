//! Elements whose content isn't read: a header and the content octets.
ghost use Rattle.std.specs.Prelude.{◌≡◌, ◌≤◌, None, length};
ghost use Rattle.der_base.specs.declared.header.Class.{Class};
ghost use Rattle.der_base.specs.Answer.{MatchAnswer};
ghost use Rattle.der_base.specs.Any.{AnswersAny, AnswersDerAny, AnswersContent};
ghost use Rattle.der_base.specs.Any.{ReadsAny, AnyRefuses, AnyLacks, ReadsDerAny, DerAnyLacks};
ghost use Rattle.der_base.specs.Fault.{DerHeaderRefuses};
ghost use Rattle.der_base.specs.Header.{IsHeader, class_of, is_constructed, number_of, length_of, raw_tag_of};
ghost use Rattle.der_base.specs.Leaf.{is_list};
ghost use Rattle.der_base.specs.Refusal.{Refusal};
ghost use Rattle.der_base.specs.Spelling.{BeginsWithElement, framing_budget};

use crate::MAX_RECURSION;
use crate::content::read_content;
use crate::error::{BerError, Err, IResult, Needed};
use crate::header::{Class, Header, Length, Tag, ber_read_element_header, der_read_element_header};

/// An element whose content isn't read.
#[derive(Clone, Copy, Debug, PartialEq)]
pub struct Any<'a> {
    /// The header.
    pub header: Header<'a>,
    /// The content octets.
    pub bytes: &'a [u8],
}

impl<'a> Any<'a> {
    /// An element of these parts.
    pub fn new(header: Header<'a>, bytes: &'a [u8]) -> Any<'a>
        ensures header { result.header ≡ header.entry }
        ensures bytes { result.bytes ≡ bytes.entry }
    {
        Any { header, bytes }
    }

    /// An element of a universal type. Its length is that of `bytes`. SEQUENCE and SET are constructed. It has no raw
    /// tag.
    pub fn from_tag_and_data(tag: Tag, bytes: &'a [u8]) -> Any<'a>
        ensures header { let w = bytes.entry.now in
            IsHeader result.header Class.Universal (is_list tag.0) tag.0 (Length.Definite (length w)) None }
        ensures bytes { result.bytes ≡ bytes.entry }
    {
        let constructed = tag == Tag::Sequence || tag == Tag::Set;
        let length = Length::Definite(bytes.len());
        let header = Header::new(Class::Universal, constructed, tag, length);
        Any { header, bytes }
    }

    /// This element with another class.
    pub fn with_class(self, class: Class) -> Any<'a>
        ensures header { let h = self.entry.header in
            IsHeader result.header class (is_constructed h) (number_of h) (length_of h) (raw_tag_of h) }
        ensures bytes { result.bytes ≡ self.entry.bytes }
    {
        Any {
            header: self.header.with_class(class),
            bytes: self.bytes,
        }
    }

    /// The class of the header.
    pub fn class(&self) -> Class
        ensures { result ≡ class_of self.now.header }
    {
        self.header.class()
    }

    /// The tag number of the header.
    pub fn tag(&self) -> Tag
        ensures { result.0 ≡ number_of self.now.header }
    {
        self.header.tag()
    }

    /// Reads an element by BER, and returns the rest of the input with it. The content is framed, not checked. With an
    /// indefinite length, the content is the elements before the end-of-contents octets `00 00` (X.690 8.1.3.6, 8.1.5).
    /// If the input begins with end-of-contents octets, they are an element without content.
    ///
    /// Errors: those of `ber_read_element_header`, also for the headers inside an indefinite length; BerMaxDepth if
    /// indefinite lengths are nested `MAX_RECURSION` deep, after the first header in the innermost of them is read.
    /// Incomplete with the number of octets that a header or a definite content lacks. It doesn't allocate.
    pub fn from_ber(i: &'a [u8]) -> IResult<&'a [u8], Any<'a>, BerError>
        ensures { AnswersAny i.now result }
    {
        Any::read_ber(i)
    }

    #[inline(always)]
    fn read_ber(i: &'a [u8]) -> IResult<&'a [u8], Any<'a>, BerError>
        ensures { MatchAnswer result (λ x. ReadsAny i.now x.1 x.0.now) (AnyRefuses i.now) (AnyLacks i.now) ⊥ }
    {
        let (behind, header) = ber_read_element_header(i)?;
        let (rest, bytes) = read_content(behind, header.length(), MAX_RECURSION)?;
        Ok((rest, Any { header, bytes }))
    }

    /// Reads an element with a header as DER writes it, and returns the rest of the input with it. The content isn't
    /// checked.
    ///
    /// Errors: those of `der_read_element_header`. Incomplete with the number of octets that the header or the content
    /// lacks. It doesn't allocate.
    #[inline(always)]
    pub fn from_der(i: &'a [u8]) -> IResult<&'a [u8], Any<'a>, BerError>
        ensures { AnswersDerAny i.now result }
    {
        Any::read_der(i)
    }

    #[inline(always)]
    fn read_der(i: &'a [u8]) -> IResult<&'a [u8], Any<'a>, BerError>
        ensures { MatchAnswer result
            (λ x. ReadsDerAny i.now x.1 x.0.now)
            (DerHeaderRefuses i.now)
            (DerAnyLacks i.now)
            ⊥ }
    {
        let (rest, header) = der_read_element_header(i)?;
        let length = header.length().definite()?;
        if rest.len() < length {
            return Err(Err::Incomplete(Needed::Size(length - rest.len())));
        }
        let (bytes, rest) = rest.split_at(length);
        Ok((rest, Any { header, bytes }))
    }
}

/// Reads the content after a header with this length by BER. Returns what follows the element, and the content octets.
/// A definite content is skipped. With an indefinite length, the content is the elements before the end-of-contents
/// octets `00 00` (X.690 8.1.3.6, 8.1.5). Indefinite lengths, this one included, may be nested less deep than the
/// budget.
///
/// Errors, for an indefinite length only: those of `ber_read_element_header` for the headers inside; BerMaxDepth if the
/// budget is used up, after the first header in the innermost length is read. Incomplete with the number of octets that
/// a header or a definite content lacks. It doesn't allocate.
pub fn ber_read_content<'a>(
    i: &'a [u8],
    length: Length,
    budget: usize,
) -> IResult<&'a [u8], &'a [u8], BerError>
    requires { 1 ≤ budget }
    ensures { AnswersContent length budget i.now result }
{
    read_content(i, length, budget)
}
