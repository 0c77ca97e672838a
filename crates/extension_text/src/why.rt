//! More exact reasons of errors.
ghost use Rattle.std.specs.Prelude.{◌≡◌};
ghost use Rattle.der_cursor.specs.Cursors.{is_at_end};
ghost use Rattle.extension_text.specs.Why.{unexpected, why_of};

use der_base::error::{BerError, Err as Reason};
use der_base::header::Class;
use der_cursor::ReadError;
use der_elements::TypeName;
use std::fmt;

/// A more exact reason of an error.
#[derive(Clone, Copy, Debug, PartialEq)]
pub enum Why {
    /// There is none: the reader's reason is printed.
    AsRead,
    /// A default value is encoded, which DER omits (X.690 11.5).
    Default,
    /// A list is empty, and its type requires an item.
    Empty,
    /// The last named bit is 0, which DER omits (X.690 11.2.2).
    LastBit,
    /// An element with this tag is where another is expected.
    Unexpected(TypeName),
}

impl fmt::Display for Why {
    ghost use Rattle.std.specs.Prelude.{Some};
    ghost use Rattle.extension_text.specs.Why.{why_text};

    ghost output = { λ x. Some (why_text x) };

    fn fmt<W: fmt::Write>(&self, f: &mut fmt::Formatter<W>) -> fmt::Result {
        match self {
            Why::AsRead => Ok(()),
            Why::Default => write!(f, "a default value is written (X.690 11.5)"),
            Why::Empty => write!(f, "the list is empty"),
            Why::LastBit => write!(f, "the last bit is 0 (X.690 11.2.2)"),
            Why::Unexpected(name) => write!(f, "unexpected {name}"),
        }
    }
}

/// The text of an error, with its offset: "at 276: a default value is written (X.690 11.5)".
#[derive(Clone, Copy)]
pub struct ErrorText<'r> {
    pub refusal: &'r ReadError<BerError>,
    pub why: Why,
}

impl fmt::Display for ErrorText<'_> {
    ghost use Rattle.extension_text.specs.Why.{error_text};

    ghost output = { λ x. error_text x.refusal.now x.why };

    fn fmt<W: fmt::Write>(&self, f: &mut fmt::Formatter<W>) -> fmt::Result {
        let refusal = self.refusal;
        match self.why {
            Why::AsRead => write!(f, "{refusal}"),
            why => write!(f, "at {}: {why}", refusal.offset),
        }
    }
}

/// The more exact reason of an error. `name` is the type or tag of the rejected element, if there is one, and `wrong`
/// the reason if its value is wrong.
pub fn why_of(refusal: &ReadError<BerError>, name: Option<TypeName>, wrong: Why) -> Why
    ensures { result ≡ why_of refusal.now name wrong }
{
    match &refusal.reason {
        Reason::Error(BerError::BerValueError) if is_at_end(refusal) => Why::Empty,
        Reason::Error(BerError::BerValueError) => wrong,
        Reason::Error(BerError::UnexpectedTag { .. }) => unexpected(name),
        Reason::Error(BerError::UnexpectedClass { .. }) => unexpected(name),
        _ => Why::AsRead,
    }
}

/// The reason for an unexpected element. The reader's reason names universal types.
fn unexpected(name: Option<TypeName>) -> Why
    ensures { result ≡ unexpected name }
{
    match name {
        Some(name) if name.class != Class::Universal => Why::Unexpected(name),
        _ => Why::AsRead,
    }
}

/// Returns whether the rejected element is at the end of its list, so that it is missing.
pub fn is_at_end(refusal: &ReadError<BerError>) -> bool
    ensures { result ≡ is_at_end refusal.now.list_end refusal.now.offset }
{
    match refusal.list_end {
        Some(end) => end == refusal.offset,
        None => false,
    }
}
