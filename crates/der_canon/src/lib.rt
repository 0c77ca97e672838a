//! Elements written as DER writes them (X.690 10 and 11), as far as that doesn't depend on their types. It takes no
//! memory: the caller's buffer gets the octets.
#![tactic(auto)]

mod content;
mod elements;
mod error;
pub mod laws;
mod octets;
mod piece;
mod size;
mod strings;
mod value;
mod writer;

pub use elements::{canonical, canonical_into};
pub use error::{CanonError, NotCanonical};
