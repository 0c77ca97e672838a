//! A reader of distinguished names (X.501 9.2) over the public calls of `der_parser` alone.
mod name;

pub use name::{Attr, Name, read_name};
