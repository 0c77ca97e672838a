//! Decodes inputs: octets, PEM (RFC 7468), hexadecimal digits and base64 (RFC 4648).
#![tactic(auto)]

mod characters;
mod error;
mod escapes;
mod fault;
mod form;
mod marks;
mod notation;
mod numbers;
mod pem;
mod plain;
mod search;
mod slices;

pub use error::FormError;
pub use fault::{Base64Fault, Wrong};
pub use form::{Form, form_of};
pub use pem::{Block, first_begin, first_label, next_block};
pub use plain::{decode_base64, decode_hex};
pub use slices::{decode_base64_into, decode_hex_into};
