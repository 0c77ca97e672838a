//! Names of fields in errors.
ghost use Rattle.std.specs.Prelude.{◌≡◌};
ghost use Rattle.der_cursor.specs.Named.{IsOfElement, IsSettled, NamesMore, NamesOfElement, NamesRefusal, Settles};
ghost use Rattle.der_cursor.specs.Named.{names_of};

use crate::cursor::Cursor;
use crate::error::ReadError;
use arrayvec::ArrayVec;
use der_base::error::{BerError, refuse_cut_item};
use der_base::header::{Class, Tag};
use std::error::Error;
use std::fmt;

/// How many names an error keeps. They are the innermost ones.
pub(crate) const MOST_NAMES: usize = 8;

impl ReadError<BerError> {
    /// The error for a part of an element that the input holds in full: more octets don't help, so `Err::Incomplete`
    /// becomes the error Incomplete.
    pub fn settled(self) -> ReadError<BerError>
        ensures { Settles self result }
    {
        ReadError {
            offset: self.offset,
            list_end: self.list_end,
            reason: refuse_cut_item(self.reason),
        }
    }

    /// The error for an input that has to be one element of this class, constructed bit and tag number, if its reader
    /// returned this error. If the input ends within that element or begins with another, it is the error of
    /// `Cursor::open`. Otherwise it is this error, settled. So Incomplete means that the input ends within the element.
    pub fn of_element(
        self,
        input: Cursor<'_>,
        class: Class,
        constructed: bool,
        tag: Tag,
    ) -> ReadError<BerError>
        ensures { IsOfElement class constructed tag.0 input.entry self result }
    {
        let mut element = input;
        match element.open(class, constructed, tag) {
            Ok(_) => self.settled(),
            Err(e) => e,
        }
    }
}

/// An error with the names of the fields around its element: "tbsCertificate.serialNumber at 13: ..".
#[derive(Drop)]
pub struct FieldError {
    /// The outermost first.
    names: ArrayVec<&'static str, MOST_NAMES>,
    /// The offset and the reason.
    pub refusal: ReadError<BerError>,
}

impl FieldError {
    /// The names of the fields around the element, the outermost first. The innermost eight are kept.
    pub fn names(&self) -> &[&'static str]
        ensures { result.now ≡ names_of self.now }
    {
        self.names.as_slice()
    }

    /// The error for a field of an element that the input holds in full: more octets don't help, so `Err::Incomplete`
    /// becomes the error Incomplete.
    pub fn settled(self) -> FieldError
        ensures { IsSettled self result }
    {
        let FieldError { names, refusal } = self;
        FieldError {
            names,
            refusal: refusal.settled(),
        }
    }

    /// `ReadError::of_element`, keeping the names.
    pub fn of_element(
        self,
        input: Cursor<'_>,
        class: Class,
        constructed: bool,
        tag: Tag,
    ) -> FieldError
        ensures { NamesOfElement class constructed tag.0 input.entry self result }
    {
        let FieldError { names, refusal } = self;
        FieldError {
            names,
            refusal: refusal.of_element(input, class, constructed, tag),
        }
    }
}

impl fmt::Debug for FieldError {
    fn fmt<W: fmt::Write>(&self, f: &mut fmt::Formatter<W>) -> fmt::Result {
        write!(f, "{self}")
    }
}

impl fmt::Display for FieldError {
    fn fmt<W: fmt::Write>(&self, f: &mut fmt::Formatter<W>) -> fmt::Result {
        for (index, name) in self.names.iter().enumerate() {
            if index > 0 {
                write!(f, ".")?;
            }
            write!(f, "{name}")?;
        }
        write!(f, " {}", self.refusal)
    }
}

impl Error for FieldError {}

/// Adds the name of a field to its error.
///
/// ```
/// let serial_number = fields.integer().named("serialNumber")?;
/// ```
pub trait Named<T> {
    ghost use Rattle.std.specs.Borrow.{Bor};
    ghost use Rattle.std.specs.Prelude.{ℕ, List, Result};
    ghost use Rattle.der_cursor.specs.declared.named.FieldError.{FieldError};

    ghost names: { Self → Bor (List ℕ) → Result T FieldError → Type 0 };

    /// The value, or the error with this name before its other names. The innermost eight are kept.
    fn named(self, name: &'static str) -> Result<T, FieldError>
        ensures { names self name.entry result };
}

impl<T> Named<T> for Result<T, ReadError<BerError>> {
    ghost names = { NamesRefusal };

    fn named(self, name: &'static str) -> Result<T, FieldError> {
        match self {
            Ok(value) => Ok(value),
            Err(refusal) => {
                let mut names = ArrayVec::new();
                let _ = names.try_push(name);
                Err(FieldError { names, refusal })
            }
        }
    }
}

impl<T> Named<T> for Result<T, FieldError> {
    ghost names = { NamesMore };

    fn named(self, name: &'static str) -> Result<T, FieldError> {
        match self {
            Ok(value) => Ok(value),
            Err(mut refused) => {
                let _ = refused.names.try_insert(0, name);
                Err(refused)
            }
        }
    }
}
