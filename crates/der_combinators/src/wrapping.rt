//! Objects that combinators make of what their parsers return: lists, tagged objects and optional objects.
ghost use Rattle.std.specs.Prelude.{IfSome};
ghost use Rattle.der_base.specs.Containers.{ContainerRun, MadeInMemory, OnContent, OnImplicit};
ghost use Rattle.der_base.specs.Inner.Opened.{IsOpened, IsUnopened, Remakes};
ghost use Rattle.der_combinators.specs.Lists.{IsListOf};
ghost use Rattle.der_object.specs.Combined.{IsPresent, IsTagged, MakesObject, MayBeAbsent};

use crate::list_type::ListType;
use crate::opening::Opened;
use der_base::MAX_RECURSION;
use der_base::error::{Err, IResult};
use der_base::header::{Header, Length};
use der_object::{BerObject, BerObjectContent};
use std::alloc::Global;

/// The result with the list object in place of its items.
#[inline(always)]
pub fn with_list<'a, E>(
    list: ListType,
    answer: IResult<&'a [u8], Vec<BerObject<'a>>, E>,
) -> IResult<&'a [u8], BerObject<'a>, E>
    ensures { Remakes (IsListOf list) answer.entry result }
{
    match answer {
        Ok((after, items)) => return Ok((after, list.object(items))),
        Err(e) => return Err(e),
    }
}

/// Calls `f` once on the content of the opened element, and returns the object that it reads, in a box inside the
/// element's tag. If no element was opened, it returns that error.
pub fn parse_tagged_content<'a, F, E>(
    alloc: Global,
    f: &mut F,
    opened: Result<Opened<'a>, Err<E>>,
) -> IResult<&'a [u8], BerObject<'a>, E>
where
    F: FnMut(&'a [u8]) -> IResult<&'a [u8], BerObject<'a>, E>,
    requires { F.IsAlwaysCallable f.old }
    ensures callable { F.IsAlwaysCallable f.new }
    ensures run { ContainerRun (IsOpened opened.entry) (IsUnopened opened.entry)
        (MadeInMemory IsTagged (OnContent F.step)) f.old result f.new }
{
    let (header, content, after) = match opened {
        Ok(parts) => parts,
        Err(e) => return Err(e),
    };
    let inner = match f(content) {
        Ok((_, inner)) => inner,
        Err(e) => return Err(e),
    };
    match tagged_object(alloc, header, inner) {
        Some(object) => return Ok((after, object)),
        None => return Err(Err::OutOfMemory),
    }
}

/// The object inside the tag of the header.
fn tagged_object<'a>(
    alloc: Global,
    header: Header<'a>,
    inner: BerObject<'a>,
) -> Option<BerObject<'a>>
    ensures { IfSome result (λ x. IsTagged header.entry inner.entry x) }
{
    match Box::new(alloc, inner) {
        Ok(boxed) => {
            let content = BerObjectContent::Tagged(header.class(), header.tag(), boxed);
            Some(BerObject::from_header_and_content(header, content))
        }
        Err(_) => None,
    }
}

/// Calls `f` once on the content of the opened element, its header with the definite length of the content, and the
/// depth `MAX_RECURSION`. Returns the object of that header and of the content that `f` reads. If no element was
/// opened, it returns that error.
pub fn parse_object_content<'a, F, E>(
    f: &mut F,
    opened: Result<Opened<'a>, Err<E>>,
) -> IResult<&'a [u8], BerObject<'a>, E>
where
    F: FnMut(&'a [u8], &Header<'a>, usize) -> IResult<&'a [u8], BerObjectContent<'a>, E>,
    requires { F.IsAlwaysCallable f.old }
    ensures callable { F.IsAlwaysCallable f.new }
    ensures run { ContainerRun (IsOpened opened.entry) (IsUnopened opened.entry)
        (OnImplicit (MakesObject F.step)) f.old result f.new }
{
    let (header, content, after) = match opened {
        Ok(parts) => parts,
        Err(e) => return Err(e),
    };
    let header = header.with_length(Length::Definite(content.len()));
    match f(content, &header, MAX_RECURSION) {
        Ok((_, value)) => return Ok((after, BerObject::from_header_and_content(header, value))),
        Err(e) => return Err(e),
    }
}

/// The result for an optional object, from the result `answer` of its own parser on `i`: the object, in a box and under
/// its own header, or an absent object with all of `i` left. OutOfMemory is returned as it is.
pub fn may_be_absent<'a, E>(
    alloc: Global,
    i: &'a [u8],
    answer: IResult<&'a [u8], BerObject<'a>, E>,
) -> IResult<&'a [u8], BerObject<'a>, E>
where
    E: Drop,
    ensures { MayBeAbsent i.now answer.entry result }
{
    match answer {
        Ok((rest, inner)) => match present_object(alloc, inner) {
            Some(object) => return Ok((rest, object)),
            None => return Err(Err::OutOfMemory),
        },
        Err(e) => match e {
            Err::OutOfMemory => return Err(Err::OutOfMemory),
            _ => return Ok((i, BerObject::from_obj(BerObjectContent::Optional(None)))),
        },
    }
}

/// An object that is present.
fn present_object<'a>(alloc: Global, inner: BerObject<'a>) -> Option<BerObject<'a>>
    ensures { IfSome result (λ x. IsPresent inner.entry x) }
{
    let header = inner.header;
    match Box::new(alloc, inner) {
        Ok(boxed) => {
            let content = BerObjectContent::Optional(Some(boxed));
            Some(BerObject::from_header_and_content(header, content))
        }
        Err(_) => None,
    }
}
