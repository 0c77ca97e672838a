//! Lists of values of one type (X.680 26, 28). They are kept as their checked octets.
//!
//! The error is a type parameter that is always `BerError`. The borrow checker's proof doesn't cover a generic function
//! whose signature names `BerError`.
ghost use Rattle.std.specs.Prelude.{◌≡◌, ◌<◌, ◌^◌, length};
ghost use Rattle.std.specs.Iterator.{at_most};
ghost use Rattle.std.specs.Option.{option_map};
ghost use Rattle.der_base.specs.declared.rules.Rules.{Rules};
ghost use Rattle.der_cursor.specs.Formats.{Constructed, Never, Only, Optional, ReadsField, ReadsWhole};
ghost use Rattle.der_cursor.specs.Formats.{Required, Sequence};
ghost use Rattle.der_extensions.specs.Lists.{ListOf, SomeOf, YieldsNext, items_left, list_octets};

use der_base::error::BerError;
use der_base::header::{Class, Tag};
use der_cursor::{Cursor, ReadError};
use std::marker::PhantomData;

/// A value that a list contains, such as a `GeneralName`.
pub trait Item<'a, E>: Drop {
    ghost use Rattle.der_cursor.specs.Formats.{Field, Never, ReadsField};
    ghost use Rattle.der_extensions.specs.Lists.{TakesOctets};

    // Its type in ASN.1, the values of that type, and the value that this one stands for.
    ghost Value: { Type 0 };

    ghost field: { Field Value };

    ghost view: { Self → Value };

    /// Reads the next value.
    fn read(list: &mut Cursor<'a>) -> Result<Self, ReadError<E>>
        ensures { ReadsField field view Never list.old result list.new };

    // A value has at least one octet, so a list ends.
    ghost takes: { TakesOctets field };
}

/// An error that can be made from the error of a cursor.
pub trait FromRefusal: Drop {
    /// Makes this error from the error of a cursor.
    fn from_refusal(refusal: ReadError<BerError>) -> ReadError<Self>;
}

impl FromRefusal for BerError {
    fn from_refusal(refusal: ReadError<BerError>) -> ReadError<BerError> {
        refusal
    }
}

/// A list, as the encodings of its values, one after another. They were checked.
#[derive(Drop)]
pub struct SequenceOf<'a, T> {
    pub octets: &'a [u8],
    kind: PhantomData<T>,
}

/// An iterator over the values of a list, in order. It ends when no value is next.
#[derive(Drop)]
pub struct Items<'a, T> {
    left: &'a [u8],
    kind: PhantomData<T>,
}

impl<'a, T: Item<'a, BerError>> SequenceOf<'a, T> {
    /// An iterator over the values.
    pub fn iter(&self) -> Items<'a, T>
        ensures octets { items_left result ≡ self.now.octets.now }
        ensures few { length (items_left result) < 2 ^ 64 }
    {
        // Callers that count need to know that there are fewer than 2^64.
        let _count = self.octets.len();
        Items {
            left: self.octets,
            kind: PhantomData,
        }
    }
}

impl<'a, T: Item<'a, BerError>> Iterator for Items<'a, T> {
    type Item = T;

    ghost next_gives = { YieldsNext items_left T.view T.field };

    ghost remaining = { λ s. at_most (length (items_left s)) };

    fn next(&mut self) -> Option<T> {
        let mut list = Cursor::new(self.left);
        let Ok(value) = T::read(&mut list) else {
            return None;
        };
        self.left = list.remaining();
        Some(value)
    }
}

/// Reads an element with this class and tag number that contains any number of values. Returns its content octets.
pub(crate) fn read_items<'a, T: Item<'a, E>, E: FromRefusal>(
    fields: &mut Cursor<'a>,
    class: Class,
    tag: Tag,
) -> Result<&'a [u8], ReadError<E>>
    ensures { ReadsField (Required (Constructed class tag.0 (ListOf T.field))) (λ x. x.now) Never
        fields.old result fields.new }
{
    let list = match fields.open(class, true, tag) {
        Ok(list) => list,
        Err(e) => return Err(E::from_refusal(e)),
    };
    let mut items = list;
    while !items.is_empty() {
        let _ = T::read(&mut items)?;
    }
    Ok(list.remaining())
}

/// Reads an element with this class and tag number that contains at least one value.
pub(crate) fn read_some<'a, T: Item<'a, E>, E: FromRefusal>(
    fields: &mut Cursor<'a>,
    class: Class,
    tag: Tag,
) -> Result<SequenceOf<'a, T>, ReadError<E>>
    ensures { ReadsField (Required (Constructed class tag.0 (SomeOf T.field))) list_octets Never
        fields.old result fields.new }
{
    let before = *fields;
    let octets = read_items::<T, E>(fields, class, tag)?;
    if octets.is_empty() {
        return Err(E::from_refusal(before.refuse(BerError::BerValueError)));
    }
    Ok(SequenceOf {
        octets,
        kind: PhantomData,
    })
}

/// Reads an element with this class and tag number that contains at least one value, if it is next.
pub(crate) fn read_optional<'a, T: Item<'a, E>, E: FromRefusal>(
    fields: &mut Cursor<'a>,
    class: Class,
    tag: Tag,
) -> Result<Option<SequenceOf<'a, T>>, ReadError<E>>
    ensures { ReadsField (Optional (Constructed class tag.0 (SomeOf T.field))) (λ x. option_map list_octets x)
        Never fields.old result fields.new }
{
    if !fields.is_next(class, tag) {
        return Ok(None);
    }
    let list = read_some::<T, E>(fields, class, tag)?;
    Ok(Some(list))
}

/// Reads a SEQUENCE SIZE (1..MAX) OF values by DER. Trailing data is an error.
pub(crate) fn read_list<'a, T: Item<'a, E>, E: FromRefusal>(
    octets: &'a [u8],
) -> Result<SequenceOf<'a, T>, ReadError<E>>
    ensures { ReadsWhole (Only (Required (Sequence (SomeOf T.field))) Rules.Der octets.now) list_octets Never result }
{
    let mut input = Cursor::new(octets);
    let list = read_some::<T, E>(&mut input, Class::Universal, Tag::Sequence)?;
    match input.end() {
        Ok(()) => Ok(list),
        Err(e) => Err(E::from_refusal(e)),
    }
}

/// Reads a SEQUENCE OF values by DER, which may be empty. Trailing data is an error.
pub(crate) fn read_list_of_any<'a, T: Item<'a, E>, E: FromRefusal>(
    octets: &'a [u8],
) -> Result<SequenceOf<'a, T>, ReadError<E>>
    ensures { ReadsWhole (Only (Required (Sequence (ListOf T.field))) Rules.Der octets.now) list_octets Never result }
{
    let mut input = Cursor::new(octets);
    let octets = read_items::<T, E>(&mut input, Class::Universal, Tag::Sequence)?;
    match input.end() {
        Ok(()) => Ok(SequenceOf {
            octets,
            kind: PhantomData,
        }),
        Err(e) => Err(E::from_refusal(e)),
    }
}
