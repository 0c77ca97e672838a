//! The results of the readers of objects.
use crate::object::{BerObject, DerObject};
use der_base::error::{BerError, IResult};

/// The result of a reader: the rest of the input with an object or another value, or an error.
pub type BerResult<'a, O = BerObject<'a>> = IResult<&'a [u8], O, BerError>;

/// The result of a DER reader.
pub type DerResult<'a> = BerResult<'a, DerObject<'a>>;
