//! What modules of ASN.1 say besides types: what names stand for, words in comments, constraints, object identifiers,
//! object classes and object sets.
#![tactic(auto)]

mod classes;
mod comments;
mod constraint;
mod error;
mod identifier;
mod items;
mod loaded;
mod names;
mod objects;
mod words_error;

pub use classes::ClassField;
pub use comments::Said;
pub use constraint::{Contained, Field, Path, Table, class_field, contained_in, table_in};
pub use error::{
    Fault, MOST_COPIES, MOST_STEPS, OUT_OF_MEMORY, Place, Problem, START, TypesError, located,
};
pub use loaded::{Loaded, Placed, Root, Source, load, text_of};
pub use names::{Assigned, Key, Names};
pub use objects::{Object, ObjectSet, Objects};
pub use words_error::WordsProblem;
