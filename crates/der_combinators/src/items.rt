//! The items of the element that was opened: the parser of one item is called again and again (X.690 8.10, 8.12). By
//! DER the items of a SET OF ascend (11.6). There are two loops, one for values of any type and one for objects: a
//! parser whose result names a lifetime doesn't fit a bound on parsers of any result.
ghost use Rattle.std.specs.Prelude.{IfErr, IfOk, Result};
ghost use Rattle.der_base.specs.Containers.{ContainerRun};
ghost use Rattle.der_base.specs.Inner.Opened.{IsOpened, IsUnopened};
ghost use Rattle.der_combinators.specs.Lists.{ItemSteps, OnItems};

use crate::item::{compared_octets, take_item};
use crate::list_type::ListType;
use crate::opening::Opened;
use der_base::error::{BerError, Err, IResult, ParseError};
use der_base::rules::Rules;
use der_object::BerObject;
use std::alloc::Global;

/// Calls `f` on the content of the opened element, and again on what each call leaves. Returns the values in their
/// order. By DER the values of a SET OF ascend. If no element was opened, it returns that error.
#[inline(always)]
pub fn parse_items<'a, F, O, E>(
    rules: Rules,
    list: ListType,
    alloc: Global,
    f: &mut F,
    opened: Result<Opened<'a>, Err<E>>,
) -> IResult<&'a [u8], Vec<O>, E>
where
    F: FnMut(&'a [u8]) -> IResult<&'a [u8], O, E>,
    O: Drop,
    E: ParseError<&'a [u8]> + From<BerError>,
    requires { F.IsAlwaysCallable f.old }
    ensures callable { F.IsAlwaysCallable f.new }
    ensures run { ContainerRun (IsOpened opened.entry) (IsUnopened opened.entry)
        (OnItems rules list E.from_error_kind_gives E.from_gives F.step) f.old result f.new }
{
    let (_, content, after) = match opened {
        Ok(parts) => parts,
        Err(e) => return Err(e),
    };
    match read_items(rules, list, alloc, f, content) {
        Ok(values) => return Ok((after, values)),
        Err(e) => return Err(e),
    }
}

/// `parse_items` for an `f` that returns objects.
#[inline(always)]
pub fn parse_objects<'a, F, E>(
    rules: Rules,
    list: ListType,
    alloc: Global,
    f: &mut F,
    opened: Result<Opened<'a>, Err<E>>,
) -> IResult<&'a [u8], Vec<BerObject<'a>>, E>
where
    F: FnMut(&'a [u8]) -> IResult<&'a [u8], BerObject<'a>, E>,
    E: ParseError<&'a [u8]> + From<BerError>,
    requires { F.IsAlwaysCallable f.old }
    ensures callable { F.IsAlwaysCallable f.new }
    ensures run { ContainerRun (IsOpened opened.entry) (IsUnopened opened.entry)
        (OnItems rules list E.from_error_kind_gives E.from_gives F.step) f.old result f.new }
{
    let (_, content, after) = match opened {
        Ok(parts) => parts,
        Err(e) => return Err(e),
    };
    match read_objects(rules, list, alloc, f, content) {
        Ok(objects) => return Ok((after, objects)),
        Err(e) => return Err(e),
    }
}

/// Calls `f` on `content`, and again on what each call leaves, until the list ends.
fn read_items<'a, F, O, E>(
    rules: Rules,
    list: ListType,
    alloc: Global,
    f: &mut F,
    content: &'a [u8],
) -> Result<Vec<O>, Err<E>>
where
    F: FnMut(&'a [u8]) -> IResult<&'a [u8], O, E>,
    O: Drop,
    E: ParseError<&'a [u8]> + From<BerError>,
    requires { F.IsAlwaysCallable f.old }
    ensures callable { F.IsAlwaysCallable f.new }
    ensures ok { IfOk result (λ v. ItemSteps rules list E.from_error_kind_gives E.from_gives F.step
        content.now f.old (Ok v.items) f.new) }
    ensures err { IfErr result (λ e. ItemSteps rules list E.from_error_kind_gives E.from_gives F.step
        content.now f.old (Result.Err e) f.new) }
{
    let mut values = Vec::new(alloc);
    let mut before: &[u8] = &[];
    let mut input = content;
    while let Some(rest) = take_item(before, input, f(input), &mut values)? {
        before = compared_octets(rules, list, &input[..input.len() - rest.len()]);
        input = rest;
    }
    Ok(values)
}

/// `read_items` for an `f` that returns objects.
fn read_objects<'a, F, E>(
    rules: Rules,
    list: ListType,
    alloc: Global,
    f: &mut F,
    content: &'a [u8],
) -> Result<Vec<BerObject<'a>>, Err<E>>
where
    F: FnMut(&'a [u8]) -> IResult<&'a [u8], BerObject<'a>, E>,
    E: ParseError<&'a [u8]> + From<BerError>,
    requires { F.IsAlwaysCallable f.old }
    ensures callable { F.IsAlwaysCallable f.new }
    ensures ok { IfOk result (λ v. ItemSteps rules list E.from_error_kind_gives E.from_gives F.step
        content.now f.old (Ok v.items) f.new) }
    ensures err { IfErr result (λ e. ItemSteps rules list E.from_error_kind_gives E.from_gives F.step
        content.now f.old (Result.Err e) f.new) }
{
    let mut objects = Vec::new(alloc);
    let mut before: &[u8] = &[];
    let mut input = content;
    while let Some(rest) = take_item(before, input, f(input), &mut objects)? {
        before = compared_octets(rules, list, &input[..input.len() - rest.len()]);
        input = rest;
    }
    Ok(objects)
}
