//! Objects: the values that are read and written. This crate has their trees, their equality, their encoding in memory
//! and over any writer, and their text.
#![tactic(auto)]

pub mod bit_string;
mod content_accessors;
mod copies;
mod encode;
mod equality;
pub mod error;
pub mod growth;
mod header_accessors;
mod hex;
mod iterators;
pub mod laws;
mod length;
pub mod number;
pub mod object;
pub mod print;
mod serialize;
mod text;
mod wide_strings;
mod writer;

pub use bit_string::BitStringObject;
pub use encode::{
    ber_encode_header, ber_encode_object, ber_encode_object_raw, ber_encode_tagged_explicit,
    ber_encode_tagged_implicit,
};
pub use error::{BerResult, DerResult};
pub use iterators::{BerObjectIntoIterator, BerObjectRefIterator};
pub use object::{BerObject, BerObjectContent, DerObject, DerObjectContent};
pub use print::{PrettyBer, PrettyPrinterFlag};
pub use writer::FaultWriter;
