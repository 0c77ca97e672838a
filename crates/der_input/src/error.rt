//! Errors of decoding an input.
use crate::fault::Base64Fault;
use std::alloc::{AllocError, AllocFailed};

/// Why the octets of an input aren't found.
#[derive(Clone, Copy, Debug, PartialEq, thiserror::Error)]
pub enum FormError {
    /// The input is of another kind.
    #[error("this looks like {0}, and not like DER, PEM, hexadecimal digits or base64")]
    LooksLike(&'static str),
    /// Hexadecimal digits aren't pairs, or there is another character.
    #[error("no pairs of hexadecimal digits")]
    Hex,
    /// The base64 is invalid.
    #[error("invalid base64 {0}")]
    Base64(Base64Fault),
    /// No block of PEM begins.
    #[error("no line -----BEGIN ..-----")]
    NoBlock,
    /// A block of PEM doesn't end.
    #[error("a block without its line -----END ..-----")]
    NoEnd,
    /// The labels at the begin and the end of a block differ.
    #[error("a block whose first and last line have other labels")]
    LabelsDiffer,
    /// A block of PEM is encrypted (RFC 1421).
    #[error("the block is encrypted")]
    Encrypted,
    /// There was no memory.
    #[error("out of memory")]
    OutOfMemory,
}

impl From<AllocError> for FormError {
    fn from(_: AllocError) -> FormError {
        FormError::OutOfMemory
    }
}

impl<T: Drop> From<AllocFailed<T>> for FormError {
    fn from(_: AllocFailed<T>) -> FormError {
        FormError::OutOfMemory
    }
}
