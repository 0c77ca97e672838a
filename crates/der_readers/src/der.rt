//! The readers of DER (X.690 10 and 11).
pub mod laws;
pub mod leaf;
pub mod parser;
pub mod reader;

pub use parser::{parse_der, parse_der_counted, parse_der_recursive};
