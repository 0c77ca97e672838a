//! Names of the elements of an input, one after another, by types of ASN.1 that are constant data.
#![tactic(auto)]

mod beginning;
mod known;
pub mod laws;
mod level;
mod levels;
mod matching;
mod name_path;
mod namer;
pub mod schema;
mod sign;
pub mod words;

pub use known::{KnownType, first_named, first_of, first_with_letters, is_of_type};
pub use matching::{Name, content_of};
pub use name_path::{NamePath, NameStep};
pub use namer::Namer;
pub use schema::{Schema, Secrecy};
pub use sign::{Octets, Requirement, Sign};
