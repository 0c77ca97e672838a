//! Errors of a text.
ghost use Rattle.std.specs.Prelude.{◌≡◌};

use std::alloc::{AllocError, AllocFailed};

/// What is wrong with a text.
#[derive(Clone, Copy, Debug, PartialEq, thiserror::Error)]
pub enum Problem {
    /// A word that has no octets.
    #[error("unknown word")]
    Word,
    /// A backtick without pairs of hexadecimal digits and another backtick after it on its line.
    #[error("no pairs of hexadecimal digits up to a backtick")]
    Hexadecimal,
    /// A quote without another one after it on its line.
    #[error("the quoted text doesn't end on its line")]
    Quote,
    /// A bracket without a tag and another bracket after it on its line.
    #[error("no tag in brackets")]
    Tag,
    /// The form of a length isn't followed by a brace.
    #[error("no brace follows the form of a length")]
    NoBrace,
    /// A brace isn't closed.
    #[error("the brace isn't closed")]
    NotClosed,
    /// A brace closes none.
    #[error("no brace is open")]
    NotOpened,
    /// A length doesn't fit its form (X.690 8.1.3.5).
    #[error("the length doesn't fit its form")]
    Length,
    /// There was no memory.
    #[error("out of memory")]
    OutOfMemory,
}

impl From<AllocError> for Problem {
    ghost use Rattle.der_text.specs.declared.error.Problem.TheVariants.{OutOfMemory};

    ghost from_gives = { λ _ e. e ≡ OutOfMemory };

    fn from(_e: AllocError) -> Problem {
        Problem::OutOfMemory
    }
}

impl<T: Drop> From<AllocFailed<T>> for Problem {
    ghost use Rattle.der_text.specs.declared.error.Problem.TheVariants.{OutOfMemory};

    ghost from_gives = { λ _ e. e ≡ OutOfMemory };

    fn from(_e: AllocFailed<T>) -> Problem {
        Problem::OutOfMemory
    }
}

/// What is wrong with a text, and where.
#[derive(Clone, Copy, Debug, PartialEq, thiserror::Error)]
#[error("line {line}, column {column}: {problem}")]
pub struct TextError {
    /// What is wrong.
    pub problem: Problem,
    /// The line, from 1.
    pub line: usize,
    /// The column, from 1, in octets.
    pub column: usize,
}

/// The problem of a text, and the number of its octets that are left there.
#[derive(Clone, Copy)]
pub struct Fault {
    pub problem: Problem,
    pub left: usize,
}

impl From<AllocError> for Fault {
    ghost use Rattle.der_text.specs.declared.error.Problem.TheVariants.{OutOfMemory};

    ghost from_gives = { λ _ e. e.problem ≡ OutOfMemory };

    fn from(_e: AllocError) -> Fault {
        Fault {
            problem: Problem::OutOfMemory,
            left: 0,
        }
    }
}

impl<T: Drop> From<AllocFailed<T>> for Fault {
    ghost use Rattle.der_text.specs.declared.error.Problem.TheVariants.{OutOfMemory};

    ghost from_gives = { λ _ e. e.problem ≡ OutOfMemory };

    fn from(_e: AllocFailed<T>) -> Fault {
        Fault {
            problem: Problem::OutOfMemory,
            left: 0,
        }
    }
}
