//! Errors of words in comments.
use std::alloc::{AllocError, AllocFailed};

/// What is wrong with words in a comment.
#[derive(Clone, Copy, Debug, PartialEq, thiserror::Error)]
pub enum WordsProblem {
    /// A word has no meaning, or no colon is behind it.
    #[error("expected label, kind, notation, heads or secret, and a colon")]
    Key,
    /// There is no text, or it has other characters.
    #[error("expected printable characters of ASCII")]
    Text,
    #[error("expected a notation, such as number or hex")]
    Notation,
    #[error("expected yes")]
    Yes,
    #[error("expected yes or unread")]
    Secrecy,
    /// A word is there twice.
    #[error("expected each word once, and one comment of words for a name")]
    Twice,
    /// No name is before the comment.
    #[error("expected a name before the comment")]
    Name,
    /// There was no memory.
    #[error("out of memory")]
    OutOfMemory,
}

/// What is wrong with words in a comment, and its offset in the text.
#[derive(Clone, Copy, Debug, PartialEq)]
pub(crate) struct WordsError {
    pub problem: WordsProblem,
    pub offset: usize,
}

const OUT_OF_MEMORY: WordsError = WordsError {
    problem: WordsProblem::OutOfMemory,
    offset: 0,
};

impl From<AllocError> for WordsError {
    fn from(_e: AllocError) -> WordsError {
        OUT_OF_MEMORY
    }
}

impl<T: Drop> From<AllocFailed<T>> for WordsError {
    fn from(_e: AllocFailed<T>) -> WordsError {
        OUT_OF_MEMORY
    }
}
