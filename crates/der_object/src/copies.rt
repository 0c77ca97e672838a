//! Copies of objects. The texts and octets of a copy still borrow from the input.
ghost use Rattle.std.specs.Prelude.{◌≢◌, [], IfOk, MatchResult};
ghost use Rattle.der_object.specs.Clones.{IsCopyOf, IsContentCopyOf, AreCopiesOf, CopyTakesMemory};

use crate::object::{BerObject, BerObjectContent};
use std::alloc::{AllocError, Global};

impl<'a> BerObject<'a> {
    /// Copies an object. The copy is equal, and its headers have the same lengths and raw tags. It allocates for the
    /// items of lists, for objects inside tagged and optional contents, and for identifiers that own their octets.
    /// Errors: AllocError if there is no memory.
    #[cycle(copy)]
    pub fn try_clone(&self, alloc: Global) -> Result<BerObject<'a>, AllocError>
        ensures { MatchResult result (IsCopyOf self.now) (λ _. CopyTakesMemory self.now.content) }
    {
        Ok(BerObject {
            header: self.header,
            content: self.content.try_clone(alloc)?,
        })
    }
}

impl<'a> BerObjectContent<'a> {
    /// Copies a content. The copy is equal, and its headers have the same lengths and raw tags. It allocates like the
    /// copy of an object.
    #[cycle(copy)]
    pub fn try_clone(&self, alloc: Global) -> Result<BerObjectContent<'a>, AllocError>
        ensures { MatchResult result (IsContentCopyOf self.now) (λ _. CopyTakesMemory self.now) }
    {
        match self {
            Self::EndOfContent => Ok(Self::EndOfContent),
            Self::Boolean(b) => Ok(Self::Boolean(*b)),
            Self::Integer(octets) => Ok(Self::Integer(*octets)),
            Self::BitString(unused, bits) => Ok(Self::BitString(*unused, *bits)),
            Self::OctetString(octets) => Ok(Self::OctetString(*octets)),
            Self::Null => Ok(Self::Null),
            Self::Enum(number) => Ok(Self::Enum(*number)),
            Self::OID(oid) => Ok(Self::OID(oid.try_clone(alloc)?)),
            Self::RelativeOID(oid) => Ok(Self::RelativeOID(oid.try_clone(alloc)?)),
            Self::NumericString(text) => Ok(Self::NumericString(*text)),
            Self::VisibleString(text) => Ok(Self::VisibleString(*text)),
            Self::PrintableString(text) => Ok(Self::PrintableString(*text)),
            Self::IA5String(text) => Ok(Self::IA5String(*text)),
            Self::UTF8String(text) => Ok(Self::UTF8String(*text)),
            Self::T61String(text) => Ok(Self::T61String(*text)),
            Self::VideotexString(text) => Ok(Self::VideotexString(*text)),
            Self::ObjectDescriptor(text) => Ok(Self::ObjectDescriptor(*text)),
            Self::GraphicString(text) => Ok(Self::GraphicString(*text)),
            Self::GeneralString(text) => Ok(Self::GeneralString(*text)),
            Self::BmpString(octets) => Ok(Self::BmpString(*octets)),
            Self::UniversalString(octets) => Ok(Self::UniversalString(*octets)),
            Self::Sequence(items) => Ok(Self::Sequence(copy_items(alloc, items)?)),
            Self::Set(items) => Ok(Self::Set(copy_items(alloc, items)?)),
            Self::UTCTime(time) => Ok(Self::UTCTime(*time)),
            Self::GeneralizedTime(time) => Ok(Self::GeneralizedTime(*time)),
            Self::Optional(None) => Ok(Self::Optional(None)),
            Self::Optional(Some(object)) => Ok(Self::Optional(Some(copy_boxed(alloc, object)?))),
            Self::Tagged(class, tag, object) => {
                Ok(Self::Tagged(*class, *tag, copy_boxed(alloc, object)?))
            }
            Self::Unknown(any) => Ok(Self::Unknown(*any)),
        }
    }
}

/// A copy of the object, in its own box.
#[cycle(copy)]
fn copy_boxed<'a>(alloc: Global, object: &BerObject<'a>) -> Result<Box<BerObject<'a>>, AllocError>
    ensures { IfOk result (λ b. IsCopyOf object.now b.value) }
{
    Ok(Box::new(alloc, object.try_clone(alloc)?)?)
}

/// Copies of the items, in order.
#[cycle(copy)]
fn copy_items<'a>(alloc: Global, items: &[BerObject<'a>]) -> Result<Vec<BerObject<'a>>, AllocError>
    ensures { MatchResult result (λ v. AreCopiesOf items.now v.items) (λ _. items.now ≢ []) }
{
    let mut copies = Vec::with_capacity(alloc, items.len())?;
    for item in items {
        copies.push(item.try_clone(alloc)?)?;
    }
    Ok(copies)
}
