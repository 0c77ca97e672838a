//! SEQUENCE and SET, as a value.
ghost use Rattle.std.specs.Prelude.{◌≡◌};
ghost use Rattle.der_combinators.specs.Lists.{IsListOf, list_number};

use der_base::header::Tag;
use der_object::{BerObject, BerObjectContent};

/// SEQUENCE or SET (X.690 8.9 to 8.12).
#[derive(Clone, Copy, Debug, PartialEq)]
pub enum ListType {
    /// SEQUENCE or SEQUENCE OF.
    Sequence,
    /// SET or SET OF.
    Set,
}

impl ListType {
    /// The tag of the type: 16 or 17.
    #[inline(always)]
    pub(crate) fn tag(self) -> Tag
        ensures { result.0 ≡ list_number self }
    {
        match self {
            ListType::Sequence => Tag::Sequence,
            ListType::Set => Tag::Set,
        }
    }

    /// The object of the type with these items.
    #[inline(always)]
    pub(crate) fn object<'a>(self, items: Vec<BerObject<'a>>) -> BerObject<'a>
        ensures { IsListOf self items.entry result }
    {
        match self {
            ListType::Sequence => BerObject::from_obj(BerObjectContent::Sequence(items)),
            ListType::Set => BerObject::from_obj(BerObjectContent::Set(items)),
        }
    }
}
