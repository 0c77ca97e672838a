//! Values of content octets, by BER and by DER. Only `to_decimal` allocates. `octets` writes headers and contents from
//! the last octet to the first, and `laws` has the laws of the definitions.
#![tactic(auto)]

mod arcs;
mod bits;
mod contents;
mod decimal;
mod identifier;
mod identifier_text;
pub mod laws;
mod numbers;
pub mod octets;
mod oid;
mod simple;
mod texts;
mod times;
mod u128_arcs;
mod value;

pub use arcs::{ArcNumber, Arcs};
pub use bits::{BitString, are_last_bits_zero, read_bits};
pub use contents::{check_value, read_value};
pub use decimal::to_decimal;
pub use identifier::ObjectIdentifier;
pub use numbers::{read_enumerated, read_i32, read_i64, read_integer, read_u32, read_u64};
pub use oid::{HasArcs, ends_subidentifier, has_padded_arc, known_oid, read_identifier, read_oid};
pub use simple::{read_bool, read_null};
pub use texts::{read_bmp_string, read_text};
pub use times::{read_moment, read_time};
pub use u128_arcs::U128Arcs;
pub use value::Value;
