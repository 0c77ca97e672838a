//! Writing DER field after field into the caller's buffer (X.690 8, 10 and 11). Only `to_vec` allocates. `formats` has
//! the laws that a cursor reads what was written.
#![tactic(auto)]

mod defaults;
mod element;
mod fields;
pub mod formats;
mod identifier;
pub mod laws;
mod named_bits;
mod optional;
mod set_of;
mod times;
mod vectors;
mod writer;

pub use vectors::{Put, to_vec};
pub use writer::{Mark, WriteError, Writer};
