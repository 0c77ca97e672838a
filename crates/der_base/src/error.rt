//! Errors, and what a parser returns in place of a value.
ghost use Rattle.std.specs.Prelude.{◌≡◌, ◌≢◌, None, Some};
ghost use Rattle.der_base.specs.Errors.{RefusesCutItem, MapsError};
ghost use Rattle.der_base.specs.declared.error.Err.TheVariants.{Error as an_error, OutOfMemory as out_of_memory};
ghost use Rattle.der_base.specs.declared.error.Error.TheVariants.{NomError};

use crate::header::{Class, Tag};
use std::alloc::{AllocError, AllocFailed};
use std::{error, fmt, io};

/// What a parser returns in place of a value.
#[derive(Debug, PartialEq, Drop)]
pub enum Err<E> {
    /// The input is cut short: more octets may change the result.
    Incomplete(Needed),
    /// The input is refused here. Another parser may still read it.
    Error(E),
    /// The input is refused, and no other parser should be tried.
    Failure(E),
    /// The allocator had no memory for the result.
    OutOfMemory,
}

/// The result of a parser: the rest of the input and a value, or an `Err`.
pub type IResult<I, O, E> = Result<(I, O), Err<E>>;

impl<E> Err<E> {
    /// The same case, with the error mapped by `f`.
    pub fn map<X, F: FnOnce(E) -> X>(self, f: F) -> Err<X>
    where
        F: Drop,
        requires { F.IsAlwaysCallable f }
        ensures { MapsError (F.post f) self result }
    {
        match self {
            Err::Incomplete(needed) => Err::Incomplete(needed),
            Err::Error(e) => Err::Error(f(e)),
            Err::Failure(e) => Err::Failure(f(e)),
            Err::OutOfMemory => Err::OutOfMemory,
        }
    }

    /// The same case, with the error converted.
    pub fn convert<X: From<E>>(e: Err<E>) -> Err<X>
        ensures { MapsError X.from_gives e result }
    {
        e.map(|x| X::from(x))
    }
}

/// The result for an item of a list. An item that runs past the end of its list is an error and not
/// incomplete, since more octets after the list don't help.
pub fn refuse_cut_item(e: Err<BerError>) -> Err<BerError>
    ensures { RefusesCutItem e result }
{
    match e {
        Err::Incomplete(needed) => Err::Error(BerError::Incomplete(needed)),
        other => other,
    }
}

impl From<BerError> for Err<BerError> {
    ghost from_gives = { λ e r. r ≡ an_error e };

    fn from(e: BerError) -> Err<BerError> {
        Err::Error(e)
    }
}

impl<E> From<AllocError> for Err<E> {
    ghost from_gives = { λ _ r. r ≡ out_of_memory };

    fn from(_e: AllocError) -> Err<E> {
        Err::OutOfMemory
    }
}

impl<T: Drop, E> From<AllocFailed<T>> for Err<E> {
    ghost from_gives = { λ _ r. r ≡ out_of_memory };

    fn from(_e: AllocFailed<T>) -> Err<E> {
        Err::OutOfMemory
    }
}

/// The text of the error, `incomplete, needs n`, or `out of memory`.
impl<E: fmt::Display> fmt::Display for Err<E> {
    ghost use Rattle.der_base.specs.Errors.{err_text};

    ghost output = { err_text E.Display.output };

    fn fmt<W: fmt::Write>(&self, f: &mut fmt::Formatter<W>) -> fmt::Result {
        match self {
            Err::Incomplete(needed) => write!(f, "incomplete{}", Needs(*needed)),
            Err::Error(e) => write!(f, "{e}"),
            Err::Failure(e) => write!(f, "{e}"),
            Err::OutOfMemory => write!(f, "out of memory"),
        }
    }
}

impl<E: fmt::Debug + fmt::Display + Drop> error::Error for Err<E> {}

/// How many octets are missing at least from an input that is cut short.
#[derive(Clone, Copy, Debug, PartialEq)]
pub enum Needed {
    /// The number isn't known. No reader returns it.
    Unknown,
    /// This many octets.
    Size(usize),
}

impl Needed {
    /// A number of octets, or `Unknown` for 0.
    pub fn new(n: usize) -> Needed
        ensures unknown { n ≡ 0 → result ≡ Needed.Unknown }
        ensures size { n ≢ 0 → result ≡ Needed.Size n }
    {
        if n == 0 {
            Needed::Unknown
        } else {
            Needed::Size(n)
        }
    }
}

/// An error about the input as a whole.
#[derive(Clone, Copy, Debug, PartialEq)]
pub enum ErrorKind {
    /// The input ends too early, or octets are left over.
    Eof,
    /// A parser that is called repeatedly takes no octets.
    Many0,
}

/// A rule of DER beyond those of BER (X.690 10 and 11).
#[derive(Clone, Copy, Debug, PartialEq, thiserror::Error)]
pub enum DerConstraint {
    /// A length is of the indefinite form (10.1).
    #[error("indefinite length")]
    IndefiniteLength,
    /// A length isn't in the fewest octets (10.1).
    #[error("length not minimal")]
    LengthNotMinimal,
    /// A type other than SEQUENCE and SET is constructed (10.2).
    #[error("constructed")]
    Constructed,
    /// A BOOLEAN is neither 00 nor ff (11.1).
    #[error("invalid boolean")]
    InvalidBoolean,
    /// An INTEGER has no octet (8.3.1).
    #[error("integer empty")]
    IntegerEmpty,
    /// The first nine bits of an INTEGER are 0 (8.3.2).
    #[error("integer with leading zeroes")]
    IntegerLeadingZeroes,
    /// The first nine bits of an INTEGER are 1 (8.3.2).
    #[error("integer with leading ff")]
    IntegerLeadingFF,
    /// A time doesn't end in Z (11.7.1, 11.8.1).
    #[error("missing time zone")]
    MissingTimeZone,
    /// A time has no seconds (11.7.2, 11.8.2).
    #[error("missing seconds")]
    MissingSeconds,
    /// A fraction of a second has a comma, or ends in 0 (11.7.3, 11.7.4).
    #[error("fraction not minimal")]
    FractionNotMinimal,
    /// An unused bit of a BIT STRING is 1 (11.2.1).
    #[error("unused bits not zero")]
    UnusedBitsNotZero,
    /// The values of a SET OF aren't in ascending order (11.6).
    #[error("set out of order")]
    SetOfOrder,
}

/// Why an input is refused.
#[derive(Clone, Copy, Debug, PartialEq, thiserror::Error)]
pub enum Error {
    /// An object has another type than the one asked for.
    #[error("wrong type")]
    BerTypeError,
    /// The content octets are no value of their type, or an object has no signed number.
    #[error("wrong value")]
    BerValueError,
    /// Objects are nested deeper than the limit.
    #[error("maximum depth reached")]
    BerMaxDepth,
    /// Length octets are reserved or too large (8.1.3.5), or their number fits no value of the
    /// type.
    #[error("invalid length")]
    InvalidLength,
    /// Identifier octets are no tag number, or one above 2^32-1 (8.1.2.4).
    #[error("invalid tag")]
    InvalidTag,
    /// A tag number that isn't known. No reader returns it.
    #[error("unknown tag {0}")]
    UnknownTag(u32),
    /// The tag number isn't the expected one.
    #[error("unexpected tag (expected {}, actual {actual})", OrAny(*expected))]
    UnexpectedTag {
        expected: Option<Tag>,
        actual: Tag,
    },
    /// The class isn't the expected one. For an explicit tag `expected` is None, since its class may be
    /// any but Universal (8.14.2).
    #[error("unexpected class (expected {}, actual {actual})", OrAny(*expected))]
    UnexpectedClass {
        expected: Option<Class>,
        actual: Class,
    },
    /// An element that must be constructed is primitive.
    #[error("constructed encoding expected")]
    ConstructExpected,
    /// An element that must be primitive is constructed.
    #[error("primitive encoding expected")]
    ConstructUnexpected,
    /// A number is out of the range of its type.
    #[error("integer too large")]
    IntegerTooLarge,
    /// A number is negative and its type is unsigned.
    #[error("integer negative")]
    IntegerNegative,
    /// The content octets are no value of the type, for the reason in `msg`.
    #[error("invalid value for {tag}: {msg}")]
    InvalidValue {
        tag: Tag,
        msg: &'static str,
    },
    /// An octet is outside the character set of a string type (8.23).
    #[error("invalid character in string")]
    StringInvalidCharset,
    /// The octets are no text of the time type (8.25).
    #[error("invalid date or time")]
    InvalidDateTime,
    /// A form of encoding that isn't supported: a BIT STRING, a character string or a time that is
    /// constructed, or a BMPString of an odd number of octets.
    #[error("unsupported")]
    Unsupported,
    /// A rule of DER is broken.
    #[error("DER constraint failed: {0}")]
    DerConstraintFailed(DerConstraint),
    /// An item runs past the end of its container. More octets don't help.
    #[error("incomplete{}", Needs(*.0))]
    Incomplete(Needed),
    /// An error about the input as a whole.
    #[error("parser fault: {0:?}")]
    NomError(ErrorKind),
}

/// Why an input is refused.
pub type BerError = Error;

impl Error {
    /// The tag is not the one expected.
    pub fn unexpected_tag(expected: Option<Tag>, actual: Tag) -> BerError
        ensures { result ≡ Error.UnexpectedTag expected actual }
    {
        BerError::UnexpectedTag { expected, actual }
    }

    /// The class is not the one expected.
    pub fn unexpected_class(expected: Option<Class>, actual: Class) -> BerError
        ensures { result ≡ Error.UnexpectedClass expected actual }
    {
        BerError::UnexpectedClass { expected, actual }
    }

    /// The content octets are no value of the type, for the reason in `msg`.
    pub fn invalid_value(tag: Tag, msg: &'static str) -> BerError
        ensures { result ≡ Error.InvalidValue tag msg.entry }
    {
        BerError::InvalidValue { tag, msg }
    }
}

/// What was expected, or `any`.
#[derive(Drop)]
struct OrAny<T>(Option<T>);

impl<T: fmt::Display> fmt::Display for OrAny<T> {
    fn fmt<W: fmt::Write>(&self, f: &mut fmt::Formatter<W>) -> fmt::Result {
        match &self.0 {
            Some(expected) => write!(f, "{expected}"),
            None => write!(f, "any"),
        }
    }
}

/// How many octets are needed, where that is known.
#[derive(Drop)]
struct Needs(Needed);

impl fmt::Display for Needs {
    ghost use Rattle.der_base.specs.Errors.{needs_text};

    ghost output = { λ x. Some (needs_text x.0) };

    fn fmt<W: fmt::Write>(&self, f: &mut fmt::Formatter<W>) -> fmt::Result {
        match self.0 {
            Needed::Unknown => Ok(()),
            Needed::Size(n) => write!(f, ", needs {n}"),
        }
    }
}

/// An error type that parsers can return in place of `BerError`.
pub trait ParseError<I>: Sized {
    ghost use Rattle.der_base.specs.declared.error.ErrorKind.{ErrorKind};

    // Holds of an input, a kind and each value that `from_error_kind` may return.
    ghost from_error_kind_gives: { I → ErrorKind → Self → Type 0 };

    // Holds of an input, a kind, the earlier error and each value that `append` may return.
    ghost append_gives: { I → ErrorKind → Self → Self → Type 0 };

    /// The error of this kind at this input.
    fn from_error_kind(input: I, kind: ErrorKind) -> Self
        ensures { from_error_kind_gives input kind result };

    /// The error of this kind at this input, after another error.
    fn append(input: I, kind: ErrorKind, other: Self) -> Self
        ensures { append_gives input kind other result };
}

impl<I: Drop> ParseError<I> for BerError {
    ghost from_error_kind_gives = { λ _ kind e. e ≡ NomError kind };

    ghost append_gives = { λ _ _ other e. e ≡ other };

    fn from_error_kind(_input: I, kind: ErrorKind) -> BerError {
        BerError::NomError(kind)
    }

    fn append(_input: I, _kind: ErrorKind, other: BerError) -> BerError {
        other
    }
}

/// Why an object can't be written.
#[derive(Debug, PartialEq, Drop, thiserror::Error)]
pub enum GenError {
    /// The writer failed, or took no octets.
    #[error("write failed")]
    Io(io::ErrorKind),
    /// The octets to write are more than 2^64-1.
    #[error("object too large")]
    TooLarge,
    /// The allocator had no memory for the octets.
    #[error("out of memory")]
    OutOfMemory,
}

impl From<AllocError> for GenError {
    ghost use Rattle.der_base.specs.declared.error.GenError.TheVariants.{OutOfMemory};

    ghost from_gives = { λ _ e. e ≡ OutOfMemory };

    fn from(_e: AllocError) -> GenError {
        GenError::OutOfMemory
    }
}

impl<T: Drop> From<AllocFailed<T>> for GenError {
    ghost use Rattle.der_base.specs.declared.error.GenError.TheVariants.{OutOfMemory};

    ghost from_gives = { λ _ e. e ≡ OutOfMemory };

    fn from(_e: AllocFailed<T>) -> GenError {
        GenError::OutOfMemory
    }
}

/// Why arcs or a text are no object identifier.
#[derive(Debug, PartialEq, Drop, thiserror::Error)]
pub enum OidParseError {
    /// Fewer than two arcs, or none for a relative identifier.
    #[error("too few components")]
    TooShort,
    /// The first two arcs have no subidentifier (X.690 8.19.4).
    #[error("first components too large")]
    FirstComponentsTooLarge,
    /// An arc isn't a decimal number of at most 2^64-1.
    #[error("not a number")]
    ParseInt,
    /// The allocator had no memory for the octets.
    #[error("out of memory")]
    OutOfMemory,
}

impl From<AllocError> for OidParseError {
    ghost use Rattle.der_base.specs.declared.error.OidParseError.TheVariants.{OutOfMemory};

    ghost from_gives = { λ _ e. e ≡ OutOfMemory };

    fn from(_e: AllocError) -> OidParseError {
        OidParseError::OutOfMemory
    }
}

impl<T: Drop> From<AllocFailed<T>> for OidParseError {
    ghost use Rattle.der_base.specs.declared.error.OidParseError.TheVariants.{OutOfMemory};

    ghost from_gives = { λ _ e. e ≡ OutOfMemory };

    fn from(_e: AllocFailed<T>) -> OidParseError {
        OidParseError::OutOfMemory
    }
}
