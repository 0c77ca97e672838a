//! The element at the start of an input, by the rules, and what combinators do with it.
ghost use Rattle.std.specs.Prelude.{ℕ, List, IfErr, IfOk, MatchOption};
ghost use Rattle.der_base.specs.declared.rules.Rules.TheVariants.{Ber, Der};
ghost use Rattle.der_base.specs.Containers.{ContainerRun, HasShortContent, OnContent, OnImplicit};
ghost use Rattle.der_base.specs.Containers.{Opens, OpensBer, OpensDer, OpensExplicit, OpensNumber};
ghost use Rattle.der_base.specs.Containers.{Refuses, RefusesExplicit, RefusesNumber};
ghost use Rattle.der_base.specs.Inner.Opened.{IsOpened, IsUnopened};

use der_base::MAX_RECURSION;
use der_base::any::Any;
use der_base::error::{BerError, Err, ErrorKind, IResult, ParseError};
use der_base::header::{
    Class, Header, Length, Tag, ber_read_element_header, der_read_element_header,
};
use der_base::rules::Rules;
use der_object::BerObject;

/// An element that was opened: its header, its content octets, and what follows it.
pub type Opened<'a> = (Header<'a>, &'a [u8], &'a [u8]);

/// The element at the start of `i`, if its content is whole.
#[inline(always)]
pub fn open_element<'a, E>(rules: Rules, i: &'a [u8]) -> Result<Opened<'a>, Err<E>>
where
    E: ParseError<&'a [u8]> + From<BerError>,
    ensures ok { IfOk result (λ x. Opens rules i.now x.0 x.1.now x.2.now) }
    ensures err { IfErr result (Refuses rules E.from_error_kind_gives E.from_gives i.now) }
{
    match rules {
        Rules::Ber => return open_ber(i),
        Rules::Der => return open_der(i),
    }
}

/// `open_element` for an element of this tag number, of any class. Another number is UnexpectedTag.
#[inline(always)]
pub fn open_number<'a, E>(rules: Rules, i: &'a [u8], tag: Tag) -> Result<Opened<'a>, Err<E>>
where
    E: ParseError<&'a [u8]> + From<BerError>,
    ensures ok { IfOk result (λ x. OpensNumber rules tag.0 i.now x.0 x.1.now x.2.now) }
    ensures err { IfErr result (RefusesNumber rules E.from_error_kind_gives E.from_gives tag.0 i.now) }
{
    let (header, content, after) = match open_element(rules, i) {
        Ok(parts) => parts,
        Err(e) => return Err(e),
    };
    match header.assert_tag(tag) {
        Ok(()) => return Ok((header, content, after)),
        Err(e) => return Err(Err::Error(E::from(e))),
    }
}

/// `open_element` for an explicit tag of this number (X.690 8.14.2). Class Universal is UnexpectedClass, then another
/// number is UnexpectedTag, then a primitive encoding is ConstructExpected.
pub fn open_explicit<'a, E>(rules: Rules, i: &'a [u8], tag: Tag) -> Result<Opened<'a>, Err<E>>
where
    E: ParseError<&'a [u8]> + From<BerError>,
    ensures ok { IfOk result (λ x. OpensExplicit rules tag.0 i.now x.0 x.1.now x.2.now) }
    ensures err { IfErr result (RefusesExplicit rules E.from_error_kind_gives E.from_gives tag.0 i.now) }
{
    let (header, content, after) = match open_element(rules, i) {
        Ok(parts) => parts,
        Err(e) => return Err(e),
    };
    if let Class::Universal = header.class() {
        return Err(Err::Error(E::from(BerError::unexpected_class(None, Class::Universal))));
    }
    match header.assert_tag(tag) {
        Ok(()) => (),
        Err(e) => return Err(Err::Error(E::from(e))),
    }
    match header.assert_constructed() {
        Ok(()) => (),
        Err(e) => return Err(Err::Error(E::from(e))),
    }
    Ok((header, content, after))
}

/// `open_element` by BER.
fn open_ber<'a, E>(i: &'a [u8]) -> Result<Opened<'a>, Err<E>>
where
    E: ParseError<&'a [u8]> + From<BerError>,
    ensures ok { IfOk result (λ x. OpensBer i.now x.0 x.1.now x.2.now) }
    ensures err { IfErr result (Refuses Ber E.from_error_kind_gives E.from_gives i.now) }
{
    match Any::from_ber(i) {
        Ok((after, any)) => return Ok((any.header, any.bytes, after)),
        Err(e) => match short_content(i) {
            Some(content) => return Err(Err::Error(E::from_error_kind(content, ErrorKind::Eof))),
            None => return Err(Err::convert(e)),
        },
    }
}

/// The octets after a header, if they are fewer than its definite length.
fn short_content(i: &[u8]) -> Option<&[u8]>
    ensures { MatchOption result
        ((content : List ℕ) → ¬ HasShortContent Ber i.now content)
        (λ content. HasShortContent Ber i.now content.now) }
{
    let Ok((content, header)) = ber_read_element_header(i) else {
        return None;
    };
    match header.length() {
        Length::Definite(n) if content.len() < n => Some(content),
        _ => None,
    }
}

/// `open_element` by DER.
fn open_der<'a, E>(i: &'a [u8]) -> Result<Opened<'a>, Err<E>>
where
    E: ParseError<&'a [u8]> + From<BerError>,
    ensures ok { IfOk result (λ x. OpensDer i.now x.0 x.1.now x.2.now) }
    ensures err { IfErr result (Refuses Der E.from_error_kind_gives E.from_gives i.now) }
{
    let (behind, header) = match der_read_element_header(i) {
        Ok(read) => read,
        Err(e) => return Err(Err::convert(e)),
    };
    let length = match header.length().definite() {
        Ok(length) => length,
        Err(e) => return Err(Err::Error(E::from(e))),
    };
    if behind.len() < length {
        return Err(Err::Error(E::from_error_kind(behind, ErrorKind::Eof)));
    }
    let (content, after) = behind.split_at(length);
    Ok((header, content, after))
}

/// Calls `f` once on the content and the header of the opened element. If no element was opened, it returns that error.
pub fn parse_content<'a, F, O, E>(
    f: &mut F,
    opened: Result<Opened<'a>, Err<E>>,
) -> IResult<&'a [u8], O, E>
where
    F: FnMut(&'a [u8], Header<'a>) -> IResult<&'a [u8], O, E>,
    requires { F.IsAlwaysCallable f.old }
    ensures callable { F.IsAlwaysCallable f.new }
    ensures run { ContainerRun (IsOpened opened.entry) (IsUnopened opened.entry) F.step f.old result f.new }
{
    let (header, content, after) = match opened {
        Ok(parts) => parts,
        Err(e) => return Err(e),
    };
    match f(content, header) {
        Ok((_, value)) => return Ok((after, value)),
        Err(e) => return Err(e),
    }
}

/// `parse_content` on the content alone, for an `f` that returns a list of objects.
pub fn parse_list_content<'a, F, E>(
    f: &mut F,
    opened: Result<Opened<'a>, Err<E>>,
) -> IResult<&'a [u8], Vec<BerObject<'a>>, E>
where
    F: FnMut(&'a [u8]) -> IResult<&'a [u8], Vec<BerObject<'a>>, E>,
    requires { F.IsAlwaysCallable f.old }
    ensures callable { F.IsAlwaysCallable f.new }
    ensures run { ContainerRun (IsOpened opened.entry) (IsUnopened opened.entry) (OnContent F.step)
        f.old result f.new }
{
    let (_, content, after) = match opened {
        Ok(parts) => parts,
        Err(e) => return Err(e),
    };
    match f(content) {
        Ok((_, items)) => return Ok((after, items)),
        Err(e) => return Err(e),
    }
}

/// `parse_content` on the content, the header with the definite length of the content, and the depth `MAX_RECURSION`.
pub fn parse_implicit_content<'a, F, O, E>(
    f: &mut F,
    opened: Result<Opened<'a>, Err<E>>,
) -> IResult<&'a [u8], O, E>
where
    F: FnMut(&'a [u8], Header<'a>, usize) -> IResult<&'a [u8], O, E>,
    requires { F.IsAlwaysCallable f.old }
    ensures callable { F.IsAlwaysCallable f.new }
    ensures run { ContainerRun (IsOpened opened.entry) (IsUnopened opened.entry) (OnImplicit F.step)
        f.old result f.new }
{
    let (header, content, after) = match opened {
        Ok(parts) => parts,
        Err(e) => return Err(e),
    };
    let length = Length::Definite(content.len());
    match f(content, header.with_length(length), MAX_RECURSION) {
        Ok((_, value)) => return Ok((after, value)),
        Err(e) => return Err(e),
    }
}
