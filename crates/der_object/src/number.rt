//! Numbers in objects (X.690 8.3, 8.4, 8.6).
ghost use Rattle.der_base.specs.Numbers.{AnswersSigned, AnswersUnsigned};
ghost use Rattle.der_object.specs.View.{content_tree};

use crate::object::{BerObject, BerObjectContent};
use der_base::error::BerError;
use der_base::integer::{read_i32, read_i64, read_u64, read_used_bits};

impl BerObjectContent<'_> {
    /// The number of an INTEGER. If it has no octets, its number is 0. Errors: IntegerTooLarge if it isn't from -2^63
    /// to 2^63-1, BerValueError for another content.
    pub fn as_i64(&self) -> Result<i64, BerError>
        ensures { AnswersSigned 64 (content_tree self.now) result }
    {
        match self {
            BerObjectContent::Integer(octets) => read_i64(octets),
            _ => Err(BerError::BerValueError),
        }
    }

    /// The number of an INTEGER, like `as_i64`. Errors: those of `as_i64`, and IntegerTooLarge if it isn't from -2^31
    /// to 2^31-1.
    pub fn as_i32(&self) -> Result<i32, BerError>
        ensures { AnswersSigned 32 (content_tree self.now) result }
    {
        match self {
            BerObjectContent::Integer(octets) => read_i32(octets),
            _ => Err(BerError::BerValueError),
        }
    }

    /// The number of an INTEGER or ENUMERATED, or the number that the used bits of a BIT STRING are in binary, the
    /// highest first.
    ///
    /// Errors: IntegerNegative for an INTEGER below 0; InvalidLength for a BIT STRING with more unused bits than it has
    /// bits; IntegerTooLarge for a number above 2^64-1 or more than 64 used bits; BerTypeError for another content.
    pub fn as_u64(&self) -> Result<u64, BerError>
        ensures { AnswersUnsigned 64 (content_tree self.now) result }
    {
        match self {
            BerObjectContent::Integer(octets) => read_u64(octets),
            BerObjectContent::Enum(n) => Ok(*n),
            BerObjectContent::BitString(unused, bits) => read_used_bits(*unused, bits.bytes),
            _ => Err(BerError::BerTypeError),
        }
    }

    /// The number, like `as_u64`. Errors: those of `as_u64`, and IntegerTooLarge if it is above 2^32-1.
    pub fn as_u32(&self) -> Result<u32, BerError>
        ensures { AnswersUnsigned 32 (content_tree self.now) result }
    {
        u32::try_from(self.as_u64()?).map_err(|_| BerError::IntegerTooLarge)
    }
}

impl BerObject<'_> {
    /// The number, like `BerObjectContent::as_i64`.
    pub fn as_i64(&self) -> Result<i64, BerError>
        ensures { AnswersSigned 64 (content_tree self.now.content) result }
    {
        self.content.as_i64()
    }

    /// The number, like `BerObjectContent::as_i32`.
    pub fn as_i32(&self) -> Result<i32, BerError>
        ensures { AnswersSigned 32 (content_tree self.now.content) result }
    {
        self.content.as_i32()
    }

    /// The number, like `BerObjectContent::as_u64`.
    pub fn as_u64(&self) -> Result<u64, BerError>
        ensures { AnswersUnsigned 64 (content_tree self.now.content) result }
    {
        self.content.as_u64()
    }

    /// The number, like `BerObjectContent::as_u32`.
    pub fn as_u32(&self) -> Result<u32, BerError>
        ensures { AnswersUnsigned 32 (content_tree self.now.content) result }
    {
        self.content.as_u32()
    }
}
