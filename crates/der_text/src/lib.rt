//! A text form of elements that people can write: converts text to octets and octets to text (docs/TEXT.md).
//!
//! Any octets have a text, and reading the text gives them back.
#![tactic(auto)]

mod element;
mod encoder;
mod error;
mod item;
pub mod laws;
mod length;
mod lexeme;
mod octets;
mod parts;
mod printer;
mod reader;
mod tag;
mod value;
mod word;
mod write;

pub use error::{Problem, TextError};
pub use octets::octets_of;
pub use printer::text_of;
