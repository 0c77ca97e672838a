//! Distinguished names as text (RFC 4514), and lines of a label with an identifier, a number, a time or a value of any
//! type. Nothing allocates.
pub mod element;
mod escaped;
pub mod identifier;
pub mod lines;
pub mod name;
pub mod serial;

pub use name::{NameText, write_name};
