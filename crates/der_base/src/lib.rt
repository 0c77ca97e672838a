//! The base of BER and DER: errors, tags, lengths and headers (X.690 8.1), and in `specs/` the
//! definitions that every contract of the project cites.
#![tactic(auto)]

pub mod any;
pub mod content;
pub mod error;
pub mod header;
pub mod identifier;
pub mod integer;
pub mod laws;
mod length;
pub mod oid;
mod oid_text;
pub mod rules;
pub mod set_of_order;
pub mod short;
pub mod spans;
pub mod text;
pub mod time;

/// The depth of readers that take none as an argument, and the framing budget of indefinite lengths. Contracts write 50
/// for the depth and `framing_budget` for the budget.
pub const MAX_RECURSION: usize = 50;

/// The most content octets of an object that a DER reader takes, 2^32-1. Contracts call it `max_object_size`.
pub const MAX_OBJECT_SIZE: usize = 4294967295;
