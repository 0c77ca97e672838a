//! Errors of a cursor, with the offset and the reason, and their texts.
ghost use Rattle.std.specs.Prelude.{◌≡◌, Some};
ghost use Rattle.der_cursor.specs.Cursors.{is_at_end};

use der_base::error::{BerError, Err as Refused, ErrorKind, Needed};
use std::error::Error;
use std::fmt;

/// Why a cursor read no value, and where.
///
/// More octets help only if the reason is `Err::Incomplete` and `list_end` is None: the input is cut short. Otherwise
/// `Err::Incomplete` and `BerError::Incomplete` mean that an element runs past the end of its list. The number is the
/// parser's: readers of one universal type by DER give the length of the content, all others the missing octets.
#[derive(Debug, Drop)]
pub struct ReadError<E> {
    /// The offset of the rejected element in the input.
    pub offset: usize,
    /// The offset of the end of the list that the element is in. None if it is in no list.
    pub list_end: Option<usize>,
    /// What the parser returned in place of a value.
    pub reason: Refused<E>,
}

impl<E> ReadError<E> {
    /// Whether the rejected element would begin where its list ends.
    fn is_at_end(&self) -> bool
        ensures { result ≡ is_at_end self.now.list_end self.now.offset }
    {
        match self.list_end {
            Some(end) => end == self.offset,
            None => false,
        }
    }
}

/// An error type that a cursor prints. It says which error of the library it holds, if any.
pub trait AsBerError {
    ghost use Rattle.std.specs.Prelude.{Option};
    ghost use Rattle.der_base.specs.declared.error.Error.{Error as BerError};

    ghost ber_error_of: { Self → Option BerError };

    /// The error of the library that this one holds.
    fn as_ber_error(&self) -> Option<BerError>
        ensures { result ≡ ber_error_of self.now };
}

impl AsBerError for BerError {
    ghost ber_error_of = { Some };

    fn as_ber_error(&self) -> Option<BerError> {
        Some(*self)
    }
}

/// The offset and the reason: "at 13: an element runs past the end of its list, needs 9". An error has its own text,
/// except for a cut item, `Eof` ("octets left over or missing") and `Many0`.
impl<E: fmt::Display + AsBerError> fmt::Display for ReadError<E> {
    ghost use Rattle.der_cursor.specs.Cursors.{refusal_text};

    ghost output = { refusal_text E.Display.output E.ber_error_of };

    fn fmt<W: fmt::Write>(&self, f: &mut fmt::Formatter<W>) -> fmt::Result {
        write!(f, "at {}: {}", self.offset, Reason(self))
    }
}

impl<E: fmt::Debug + fmt::Display + AsBerError + Drop> Error for ReadError<E> {}

/// The text of a reason.
#[derive(Clone, Copy)]
struct Reason<'r, E>(&'r ReadError<E>);

impl<E: fmt::Display + AsBerError> fmt::Display for Reason<'_, E> {
    ghost use Rattle.der_cursor.specs.Cursors.{reason_text};

    ghost output = { λ x. reason_text E.Display.output E.ber_error_of x.0.now x.0.now.reason };

    fn fmt<W: fmt::Write>(&self, f: &mut fmt::Formatter<W>) -> fmt::Result {
        let refusal = self.0;
        match &refusal.reason {
            Refused::Incomplete(needed) => {
                write!(f, "{}", Cut(refusal.list_end, refusal.offset, *needed))
            }
            Refused::Error(e) => write!(f, "{}", Fault(refusal.is_at_end(), e)),
            Refused::Failure(e) => write!(f, "{}", Fault(refusal.is_at_end(), e)),
            Refused::OutOfMemory => write!(f, "out of memory"),
        }
    }
}

/// An element that is cut short: the end of its list, its offset and what it needs.
#[derive(Clone, Copy)]
struct Cut(Option<usize>, usize, Needed);

impl fmt::Display for Cut {
    ghost use Rattle.der_cursor.specs.Cursors.{cut_text};

    ghost output = { λ x. Some (cut_text x.0 x.1 x.2) };

    fn fmt<W: fmt::Write>(&self, f: &mut fmt::Formatter<W>) -> fmt::Result {
        match self.0 {
            None => write!(f, "the input is cut short{}", Needs(self.2)),
            Some(end) => write!(f, "{}", CutItem(end == self.1, self.2)),
        }
    }
}

/// An element of a list that is cut short: whether it is at the end of the list, and what it needs.
#[derive(Clone, Copy)]
struct CutItem(bool, Needed);

impl fmt::Display for CutItem {
    ghost use Rattle.der_cursor.specs.Cursors.{cut_item_text};

    ghost output = { λ x. Some (cut_item_text x.0 x.1) };

    fn fmt<W: fmt::Write>(&self, f: &mut fmt::Formatter<W>) -> fmt::Result {
        if self.0 {
            write!(f, "an element is missing at the end of its list")
        } else {
            write!(
                f,
                "an element runs past the end of its list{}",
                Needs(self.1)
            )
        }
    }
}

/// How many octets are needed, if that is known.
#[derive(Clone, Copy)]
struct Needs(Needed);

impl fmt::Display for Needs {
    ghost use Rattle.der_base.specs.Errors.{needs_text};

    ghost output = { λ x. Some (needs_text x.0) };

    fn fmt<W: fmt::Write>(&self, f: &mut fmt::Formatter<W>) -> fmt::Result {
        match self.0 {
            Needed::Unknown => Ok(()),
            Needed::Size(n) => write!(f, ", needs {n}"),
        }
    }
}

/// The text of an error, and whether its element would begin where its list ends.
#[derive(Clone, Copy)]
struct Fault<'r, E>(bool, &'r E);

impl<E: fmt::Display + AsBerError> fmt::Display for Fault<'_, E> {
    ghost use Rattle.der_cursor.specs.Cursors.{error_text};

    ghost output = { λ x. error_text x.0 (E.ber_error_of x.1.now) (E.Display.output x.1.now) };

    fn fmt<W: fmt::Write>(&self, f: &mut fmt::Formatter<W>) -> fmt::Result {
        let error = self.1;
        match error.as_ber_error() {
            Some(BerError::Incomplete(needed)) => write!(f, "{}", CutItem(self.0, needed)),
            Some(BerError::NomError(ErrorKind::Eof)) => write!(f, "octets left over or missing"),
            Some(BerError::NomError(ErrorKind::Many0)) => {
                write!(f, "the reader of one item of a list read no octets")
            }
            _ => write!(f, "{error}"),
        }
    }
}
