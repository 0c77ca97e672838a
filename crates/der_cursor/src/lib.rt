//! Reading field by field, by BER and by DER: a cursor over the elements of a content, with a call for the value of
//! each type. An error has the offset of the element in the input.
#![tactic(auto)]

mod cursor;
mod error;
mod fields;
pub mod laws;
mod named;
mod optional;

pub use cursor::Cursor;
pub use error::{AsBerError, ReadError};
pub use named::{FieldError, Named};
