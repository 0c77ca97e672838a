//! Errors of modules whose types can't be made.
ghost use Rattle.std.specs.Prelude.{◌≡◌, map};
ghost use Rattle.asn1_names.specs.Places.{IsAt};

use crate::words_error::WordsProblem;
use asn1_modules::{column_after, line_after};
use std::alloc::{AllocError, AllocFailed};

/// The most references, tags and lists that may lead from a type to what it is.
pub const MOST_STEPS: usize = 64;

/// The most components and alternatives that may be copied from other types.
pub const MOST_COPIES: usize = 100_000;

/// The most octets of object classes, sets and objects that may be read. Some are read again.
pub const MOST_OCTETS: usize = 10_000_000;

/// What is wrong with modules.
#[derive(Clone, Copy, Debug, PartialEq, thiserror::Error)]
pub enum Problem {
    /// A text isn't a module.
    #[error("{0}")]
    Syntax(asn1_modules::Problem),
    /// Words in a comment can't be read.
    #[error("{0}")]
    Words(WordsProblem),
    /// A name is neither assigned in the module nor imported (X.680 14.1).
    #[error("{0} is neither defined nor imported")]
    UnknownName(&'static str),
    /// None of the texts has the module (13.16).
    #[error("no text has module {0}")]
    UnknownModule(&'static str),
    /// Two assignments of a module, or two modules, have this name (13.1).
    #[error("{0} is defined twice")]
    DefinedTwice(&'static str),
    /// A type is defined by itself, with no tag or list between.
    #[error("a type is defined by itself, or through more than {MOST_STEPS} names and tags")]
    Endless,
    /// Two alternatives of a CHOICE have one tag (29.3).
    #[error("alternative {0} has the tag of another one")]
    SameTag(&'static str),
    /// The number of a tag isn't a number up to 2^32-1 (31.2).
    #[error("{0} is no tag number")]
    TagNumber(&'static str),
    /// The type in a selection type has no such alternative (30.1).
    #[error("no alternative is {0}")]
    NoAlternative(&'static str),
    /// The type in COMPONENTS OF isn't a SEQUENCE, or in a SET a SET (25.4, 27.2).
    #[error("COMPONENTS OF has another type than the list around it")]
    NoComponents,
    /// COMPONENTS OF and alternatives that are CHOICEs would copy too many components.
    #[error("more than {MOST_COPIES} components would be copied")]
    TooMany,
    /// Object classes and object sets refer to each other too often.
    #[error("more than {MOST_OCTETS} octets of object sets would be read")]
    TooManyObjects,
    /// There was no memory.
    #[error("out of memory")]
    OutOfMemory,
}

/// What is wrong with modules, and where.
#[derive(Clone, Copy, Debug, PartialEq, thiserror::Error)]
#[error("line {line}, column {column}: {problem}")]
pub struct TypesError {
    /// The index of the text.
    pub text: usize,
    /// The line, from 1.
    pub line: usize,
    /// The column, from 1, in octets.
    pub column: usize,
    /// What is wrong.
    pub problem: Problem,
}

/// Where something stands: the index of a text, and the offset in it.
#[derive(Clone, Copy)]
pub struct Place {
    pub text: usize,
    pub offset: usize,
}

/// What is wrong, and the place.
#[derive(Clone, Copy)]
pub struct Fault {
    pub problem: Problem,
    pub place: Place,
}

impl From<AllocError> for Fault {
    fn from(_e: AllocError) -> Fault {
        OUT_OF_MEMORY
    }
}

impl<T: Drop> From<AllocFailed<T>> for Fault {
    fn from(_e: AllocFailed<T>) -> Fault {
        OUT_OF_MEMORY
    }
}

pub const OUT_OF_MEMORY: Fault = Fault {
    problem: Problem::OutOfMemory,
    place: START,
};

/// Where the first text begins.
pub const START: Place = Place { text: 0, offset: 0 };

impl Place {
    /// A fault at this place.
    pub fn fault(self, problem: Problem) -> Fault {
        Fault {
            problem,
            place: self,
        }
    }
}

/// The error with the line and column of a fault.
pub fn located(texts: &[&'static [u8]], fault: Fault) -> TypesError
    ensures place { IsAt (map (λ t. t.now) texts.now) fault.place.offset result }
    ensures text { result.text ≡ fault.place.text }
    ensures problem { result.problem ≡ fault.problem }
{
    let Place { text, offset } = fault.place;
    let octets: &[u8] = match texts.get(text) {
        Some(octets) => octets,
        None => &[],
    };
    let before = &octets[..offset.min(octets.len())];
    TypesError {
        text,
        line: line_after(before),
        column: column_after(before),
        problem: fault.problem,
    }
}
