//! Why elements aren't written.
ghost use Rattle.std.specs.Prelude.{◌≡◌};
ghost use Rattle.der_canon.specs.declared.error.CanonError.TheVariants.{NotCanonical, OutOfMemory};

use der_elements::{Cause, Path};
use std::alloc::{AllocError, AllocFailed};

/// Where and why elements have no DER encoding: the input isn't BER, or has a value that DER doesn't have.
#[derive(Drop)]
pub struct NotCanonical {
    /// Where the element begins, in octets from the start of the input.
    pub offset: usize,
    /// The path to the element.
    pub path: Path,
    pub cause: Cause,
}

/// Why elements aren't written to a vector.
#[derive(Drop)]
pub enum CanonError {
    /// They have no DER encoding.
    NotCanonical(NotCanonical),
    /// There was no memory.
    OutOfMemory,
}

impl From<NotCanonical> for CanonError {
    ghost from_gives = { λ refused e. e ≡ NotCanonical refused };

    fn from(refused: NotCanonical) -> CanonError {
        CanonError::NotCanonical(refused)
    }
}

impl From<AllocError> for CanonError {
    ghost from_gives = { λ _ e. e ≡ OutOfMemory };

    fn from(_: AllocError) -> CanonError {
        CanonError::OutOfMemory
    }
}
