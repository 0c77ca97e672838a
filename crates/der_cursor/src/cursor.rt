//! A cursor over the elements of a content, which knows the offset of the next one.
ghost use Rattle.std.specs.Prelude.{◌≡◌, ◌↔◌, true, false, IfOk, IfSome, IsTrue, [], slice_get};
ghost use Rattle.der_base.specs.Answer.{MatchAnswer};
ghost use Rattle.der_base.specs.declared.header.Class.{Class};
ghost use Rattle.der_base.specs.declared.rules.Rules.{Rules};
ghost use Rattle.der_base.specs.Header.{length_of};
ghost use Rattle.der_cursor.specs.Cursors.{octets_left, place_of, list_end_of, refusal_at, advanced};
ghost use Rattle.der_cursor.specs.Cursors.{class_wanted, number_wanted, IsTagged, StartsAt, Finds};
ghost use Rattle.der_cursor.specs.Cursors.{Reads, ReadsLast, IsLast, OpensAt, OpensType, OpensTagged};
ghost use Rattle.der_cursor.specs.Cursors.{AssertsUniversal, EndsAt};
ghost use Rattle.der_cursor.specs.Runs.{ReadsAll, values_of};
ghost use Rattle.der_cursor.specs.Elements.{AnswersElement, BeginsWithTag, ElementRefuses, ElementLacks};
ghost use Rattle.der_cursor.specs.Elements.{MarkerFollows, NoElement, ReadsAnyBy, SpellsElement, content_and_rest};
ghost use Rattle.der_cursor.specs.Elements.{IsShortElement, marker_size};

use crate::error::ReadError;
use der_base::any::Any;
use der_base::error::{BerError, Err as Refused, ErrorKind, IResult, ParseError, refuse_cut_item};
use der_base::header::{Class, Length, Tag};
use der_base::identifier::{class_of, leading_octet};
use der_base::rules::Rules;
use der_base::short::read_short;
use std::alloc::Global;

/// The unread octets of an input or of an element's content. A cursor knows the rules by which it reads, and its offset
/// in the input, which each error has.
///
/// ```
/// let mut fields = Cursor::new(certificate).open_sequence()?.open_sequence()?;
/// fields.open_tagged(0)?; // the version
/// let serial_number = fields.integer()?;
/// ```
#[derive(Clone, Copy)]
pub struct Cursor<'a> {
    pub(crate) left: &'a [u8],
    pub(crate) end: usize,
    // Whether the octets are the content of an element rather than the whole input.
    pub(crate) inside: bool,
    pub(crate) rules: Rules,
    // The implicit tag that the next element has.
    pub(crate) implicit: Option<(Class, Tag)>,
}

/// An element that was found.
#[derive(Clone, Copy)]
pub(crate) struct Found<'a> {
    /// The content octets.
    pub content: &'a [u8],
    /// How many end-of-contents octets follow them.
    pub marker: usize,
    /// What follows the element.
    pub rest: &'a [u8],
}

impl<'a> Cursor<'a> {
    /// A cursor at the start of an input that reads by DER.
    pub fn new(input: &'a [u8]) -> Cursor<'a>
        ensures { StartsAt Rules.Der input.now result }
    {
        Cursor::by(Rules::Der, input)
    }

    /// A cursor at the start of an input that reads by these rules.
    pub fn by(rules: Rules, input: &'a [u8]) -> Cursor<'a>
        ensures { StartsAt rules input.now result }
    {
        Cursor {
            left: input,
            end: input.len(),
            inside: false,
            rules,
            implicit: None,
        }
    }

    /// Reads the next element under an implicit tag (X.690 8.14.3): it has class context-specific and this number
    /// instead of those of its type.
    pub fn implicit(&mut self, number: u32) -> &mut Cursor<'a>
        ensures same { result.ghost_name ≡ self.entry.ghost_name }
        ensures tagged { IsTagged Class.ContextSpecific number self.old result.now }
    {
        self.implicit_of(Class::ContextSpecific, number)
    }

    /// `implicit` with another class.
    pub fn implicit_of(&mut self, class: Class, number: u32) -> &mut Cursor<'a>
        ensures same { result.ghost_name ≡ self.entry.ghost_name }
        ensures tagged { IsTagged class number self.old result.now }
    {
        self.implicit = Some((class, Tag(number)));
        self
    }

    /// The octets that aren't read yet.
    pub fn remaining(&self) -> &'a [u8]
        ensures { result.now ≡ octets_left self.now }
    {
        self.left
    }

    /// Whether all octets are read.
    pub fn is_empty(&self) -> bool
        ensures { IsTrue result ↔ (octets_left self.now ≡ []) }
    {
        self.left.is_empty()
    }

    /// The offset of the cursor in the input. It is exact if each parser that was called left an end of its input.
    pub fn offset(&self) -> usize
        ensures { result ≡ place_of self.now }
    {
        self.end.saturating_sub(self.left.len())
    }

    /// The first octet of the next element: its identifier octet if its tag number is below 31 (X.690
    /// 8.1.2). It shows whether an optional element is there.
    pub fn identifier(&self) -> Option<u8>
        ensures { result ≡ slice_get (octets_left self.now) 0 }
    {
        self.left.first().copied()
    }

    /// Calls the parser once on the octets that are left, and returns its value. If it fails, the error has the
    /// cursor's offset, and the cursor stays there.
    pub fn read<O, F, E>(&mut self, parser: F) -> Result<O, ReadError<E>>
    where
        F: FnOnce(&'a [u8]) -> IResult<&'a [u8], O, E>,
        requires { F.IsAlwaysCallable parser }
        ensures { Reads (F.post parser) self.old result self.new }
    {
        match parser(self.left) {
            Ok((rest, value)) => {
                self.advance(rest);
                Ok(value)
            }
            Err(reason) => Err(self.refused(reason)),
        }
    }

    /// `read` with a parser that allocates.
    pub fn read_in<O, F, E>(&mut self, alloc: Global, parser: F) -> Result<O, ReadError<E>>
    where
        F: FnOnce(Global, &'a [u8]) -> IResult<&'a [u8], O, E>,
        requires { F.IsAlwaysCallable parser }
        ensures { Reads (F.post parser alloc) self.old result self.new }
    {
        match parser(alloc, self.left) {
            Ok((rest, value)) => {
                self.advance(rest);
                Ok(value)
            }
            Err(reason) => Err(self.refused(reason)),
        }
    }

    /// `read` for the last value. Eof if there is trailing data.
    pub fn read_last<O, F, E>(mut self, parser: F) -> Result<O, ReadError<E>>
    where
        F: FnOnce(&'a [u8]) -> IResult<&'a [u8], O, E>,
        O: Drop,
        E: ParseError<&'a [u8]>,
        requires { F.IsAlwaysCallable parser }
        ensures { ReadsLast (F.post parser) E.from_error_kind_gives self.entry result }
    {
        match self.read(parser) {
            Ok(value) => self.last(value),
            Err(e) => Err(e),
        }
    }

    /// `read_last` with a parser that allocates.
    pub fn read_last_in<O, F, E>(mut self, alloc: Global, parser: F) -> Result<O, ReadError<E>>
    where
        F: FnOnce(Global, &'a [u8]) -> IResult<&'a [u8], O, E>,
        O: Drop,
        E: ParseError<&'a [u8]>,
        requires { F.IsAlwaysCallable parser }
        ensures { ReadsLast (F.post parser alloc) E.from_error_kind_gives self.entry result }
    {
        match self.read_in(alloc, parser) {
            Ok(value) => self.last(value),
            Err(e) => Err(e),
        }
    }

    /// Returns a value if no octets are left after it, else Eof.
    fn last<O, E>(self, value: O) -> Result<O, ReadError<E>>
    where
        O: Drop,
        E: ParseError<&'a [u8]>,
        ensures { IsLast E.from_error_kind_gives value self.entry result }
    {
        if self.left.is_empty() {
            return Ok(value);
        }
        let e = E::from_error_kind(self.left, ErrorKind::Eof);
        Err(self.refused(Refused::Error(e)))
    }

    /// Calls `read` until no octets are left, and returns the values. An error of `read` is returned as it is. Many0 if
    /// a call reads no octets, OutOfMemory if there is no memory for a value; both have the offset of that call.
    pub fn read_all<O, F, E>(self, alloc: Global, mut read: F) -> Result<Vec<O>, ReadError<E>>
    where
        F: FnMut(Global, &mut Cursor<'a>) -> Result<O, ReadError<E>> + Drop,
        O: Drop,
        E: ParseError<&'a [u8]>,
        requires { F.IsAlwaysCallable read }
        ensures { ReadsAll (λ f c r d g. F.step f alloc c r d g) E.from_error_kind_gives read self.entry
            (values_of result) }
    {
        let mut values = Vec::new(alloc);
        let mut cursor = self;
        while !cursor.left.is_empty() {
            let before = cursor;
            let value = match read(alloc, &mut cursor) {
                Ok(value) => value,
                Err(e) => return Err(e),
            };
            if cursor.left.len() >= before.left.len() {
                let e = E::from_error_kind(before.left, ErrorKind::Many0);
                return Err(before.refused(Refused::Error(e)));
            }
            if values.push(value).is_err() {
                return Err(before.refused(Refused::OutOfMemory));
            }
        }
        Ok(values)
    }

    /// A cursor over the items of the next element, which has to be a SEQUENCE (8.9).
    pub fn open_sequence(&mut self) -> Result<Cursor<'a>, ReadError<BerError>>
        ensures { OpensType true 16 self.old result self.new }
    {
        self.open_type(true, Tag::Sequence)
    }

    /// A cursor over the items of the next element, which has to be a SET (8.11).
    pub fn open_set(&mut self) -> Result<Cursor<'a>, ReadError<BerError>>
        ensures { OpensType true 17 self.old result self.new }
    {
        self.open_type(true, Tag::Set)
    }

    /// A cursor over the octets of the next element, which has to be a primitive OCTET STRING (8.7).
    pub fn open_octet_string(&mut self) -> Result<Cursor<'a>, ReadError<BerError>>
        ensures { OpensType false 4 self.old result self.new }
    {
        self.open_type(false, Tag::OctetString)
    }

    /// Opens an element of a universal type, or of its implicit tag.
    fn open_type(&mut self, constructed: bool, tag: Tag) -> Result<Cursor<'a>, ReadError<BerError>>
        ensures { OpensType constructed tag.0 self.old result self.new }
    {
        self.open(self.class_wanted(), constructed, self.tag_wanted(tag))
    }

    /// A cursor over the content of the next element, if that is an explicit tag of this number
    /// (8.14.2). None if it is another element, or there is none.
    pub fn open_tagged(&mut self, number: u8) -> Result<Option<Cursor<'a>>, ReadError<BerError>>
        ensures { OpensTagged number self.old result self.new }
    {
        if !begins_with_tag(self.left, number) {
            self.advance(self.left);
            return Ok(None);
        }
        match self.open(Class::ContextSpecific, true, Tag(u32::from(number))) {
            Ok(inner) => Ok(Some(inner)),
            Err(e) => Err(e),
        }
    }

    /// A cursor over the content of the next element, which has to have this class, constructed bit and tag number.
    /// Errors: those of `Any::from_ber` or `Any::from_der`, then UnexpectedClass, UnexpectedTag, and ConstructExpected
    /// or ConstructUnexpected.
    pub fn open(
        &mut self,
        class: Class,
        constructed: bool,
        tag: Tag,
    ) -> Result<Cursor<'a>, ReadError<BerError>>
        ensures { OpensAt class constructed tag.0 self.old result self.new }
    {
        let found = match self.find(class, constructed, tag) {
            Ok(found) => found,
            Err(e) => return Err(e),
        };
        self.advance(found.rest);
        // The content ends where the next element begins, or at the end-of-contents octets before it.
        let end = self.offset().saturating_sub(found.marker);
        Ok(Cursor {
            left: found.content,
            end,
            inside: true,
            rules: self.rules,
            implicit: None,
        })
    }

    /// Finds the next element, which has to have this class, constructed bit and tag number.
    #[inline(always)]
    pub(crate) fn find(
        &self,
        class: Class,
        constructed: bool,
        tag: Tag,
    ) -> Result<Found<'a>, ReadError<BerError>>
        ensures { Finds self.now class constructed tag.0 result }
    {
        match find_short(self.left, class, constructed, tag) {
            Some(found) => Ok(found),
            None => self.find_any(class, constructed, tag),
        }
    }

    /// `find` for an element with any header.
    fn find_any(
        &self,
        class: Class,
        constructed: bool,
        tag: Tag,
    ) -> Result<Found<'a>, ReadError<BerError>>
        ensures { Finds self.now class constructed tag.0 result }
    {
        match parse_element(self.rules, self.left, class, constructed, tag) {
            Ok((rest, element)) => Ok(Found {
                content: element.bytes,
                marker: marker_size(element.header.length()),
                rest,
            }),
            Err(reason) if self.inside => Err(self.refused(refuse_cut_item(reason))),
            Err(reason) => Err(self.refused(reason)),
        }
    }

    /// Goes on with these octets, and forgets the implicit tag.
    pub(crate) fn advance(&mut self, rest: &'a [u8])
        ensures { self.new ≡ advanced self.old rest.entry }
    {
        self.left = rest;
        self.implicit = None;
    }

    /// The class that the next element must have: that of its implicit tag, or Universal.
    pub(crate) fn class_wanted(&self) -> Class
        ensures { result ≡ class_wanted self.now.implicit }
    {
        match self.implicit {
            Some((class, _)) => class,
            None => Class::Universal,
        }
    }

    /// The tag number that the next element must have: that of its implicit tag, or of its type.
    pub(crate) fn tag_wanted(&self, tag: Tag) -> Tag
        ensures { result.0 ≡ number_wanted self.now.implicit tag.0 }
    {
        match self.implicit {
            Some((_, tag)) => tag,
            None => tag,
        }
    }

    /// UnexpectedClass if the next element isn't of class Universal (8.1.2.2). The readers of one type only compare the
    /// tag number.
    pub fn assert_universal(&self) -> Result<(), ReadError<BerError>>
        ensures { AssertsUniversal self.now result }
    {
        let Some(octet) = self.identifier() else {
            return Ok(());
        };
        let class = class_of(octet);
        if class == Class::Universal {
            return Ok(());
        }
        let e = BerError::unexpected_class(Some(Class::Universal), class);
        Err(self.refused(Refused::Error(e)))
    }

    /// Ends a list. Eof if there is trailing data.
    pub fn end(self) -> Result<(), ReadError<BerError>>
        ensures { EndsAt self.entry result }
    {
        if !self.left.is_empty() {
            return Err(self.refused(Refused::Error(BerError::NomError(ErrorKind::Eof))));
        }
        Ok(())
    }

    /// An error at the next element for a reason of the caller's, such as a value that the format doesn't have.
    pub fn refuse(&self, e: BerError) -> ReadError<BerError>
        ensures { result ≡ refusal_at self.now (Refused.Error e) }
    {
        self.refused(Refused::Error(e))
    }

    /// An error at the next element.
    pub(crate) fn refused<E>(&self, reason: Refused<E>) -> ReadError<E>
        ensures { result ≡ refusal_at self.now reason }
    {
        ReadError {
            offset: self.offset(),
            list_end: self.list_end(),
            reason,
        }
    }

    /// The offset where the content that the cursor reads ends. None if it reads the input itself.
    fn list_end(&self) -> Option<usize>
        ensures { result ≡ list_end_of self.now }
    {
        if self.inside { Some(self.end) } else { None }
    }
}

/// Finds an element of this class, constructed bit and tag number with a header of two octets, as most have (8.1.2.2,
/// 8.1.3.4).
#[inline(always)]
fn find_short<'a>(i: &'a [u8], class: Class, constructed: bool, tag: Tag) -> Option<Found<'a>>
    ensures { IfSome result (λ x. (x.marker ≡ 0)
        × IsShortElement class constructed tag.0 i.now x.content.now x.rest.now) }
{
    if tag.0 >= 31 {
        return None;
    }
    let short = read_short(i)?;
    if short.first != leading_octet(class, constructed) + tag.0 as u8 {
        return None;
    }
    Some(Found {
        content: short.content,
        marker: 0,
        rest: short.rest,
    })
}

/// How many end-of-contents octets follow a content with this length (8.1.3.6).
fn marker_size(length: Length) -> usize
    ensures { result ≡ marker_size length }
{
    match length {
        Length::Definite(_) => 0,
        Length::Indefinite => 2,
    }
}

/// Reads an element of this class, constructed bit and tag number.
pub(crate) fn parse_element<'a>(
    rules: Rules,
    i: &'a [u8],
    class: Class,
    constructed: bool,
    tag: Tag,
) -> IResult<&'a [u8], Any<'a>, BerError>
    ensures exactly { AnswersElement rules class constructed tag.0 i.now result }
    ensures marker { IfOk result (λ x. MarkerFollows rules i.now (marker_size (length_of x.1.header))) }
{
    read_element(rules, i, class, constructed, tag)
}

fn read_element<'a>(
    rules: Rules,
    i: &'a [u8],
    class: Class,
    constructed: bool,
    tag: Tag,
) -> IResult<&'a [u8], Any<'a>, BerError>
    ensures found { MatchAnswer result
        (λ x. SpellsElement rules class constructed tag.0 i.now (content_and_rest x))
        (ElementRefuses rules class constructed tag.0 i.now)
        (ElementLacks rules i.now)
        ⊥ }
    ensures marker { IfOk result (λ x. MarkerFollows rules i.now (marker_size (length_of x.1.header))) }
{
    let (rest, any) = read_any(rules, i)?;
    any.header.assert_class(class)?;
    any.header.assert_tag(tag)?;
    if constructed {
        any.header.assert_constructed()?;
    } else {
        any.header.assert_primitive()?;
    }
    Ok((rest, any))
}

/// Reads an element by these rules.
#[inline(always)]
pub(crate) fn read_any<'a>(rules: Rules, i: &'a [u8]) -> IResult<&'a [u8], Any<'a>, BerError>
    ensures found { MatchAnswer result (ReadsAnyBy rules i.now) (NoElement rules i.now) (ElementLacks rules i.now) ⊥ }
    ensures marker { IfOk result (λ x. MarkerFollows rules i.now (marker_size (length_of x.1.header))) }
{
    match rules {
        Rules::Ber => Any::from_ber(i),
        Rules::Der => Any::from_der(i),
    }
}

/// Whether the identifier octets of an explicit tag of this number are next (8.1.2).
fn begins_with_tag(left: &[u8], number: u8) -> bool
    ensures { IsTrue result ↔ BeginsWithTag number left.now }
{
    match number {
        0..31 => left.starts_with(&[0xa0 + number]),
        31..128 => left.starts_with(&[0xbf, number]),
        _ => left.starts_with(&[0xbf, 0x81, number - 128]),
    }
}
