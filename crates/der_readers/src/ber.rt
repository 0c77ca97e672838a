//! The readers of BER (X.690 8).
pub mod laws;
pub mod leaf;
pub mod parser;
pub mod reader;

pub use parser::{
    parse_ber, parse_ber_any, parse_ber_any_r, parse_ber_any_with_tag_r, parse_ber_counted,
    parse_ber_recursive,
};
