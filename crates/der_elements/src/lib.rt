//! Walking through the elements of an input in preorder, by BER or DER, without a tree: the content of a
//! constructed element of any class is elements (X.690 8.1.4), and so is that of a string that holds DER or BER.
//! `check` tells whether octets are elements, and lists them.
#![tactic(auto)]

mod cause;
pub mod check;
mod content;
mod element;
mod error;
mod fault;
mod inside;
pub mod laws;
mod name;
mod path;
mod reason;
mod walk;

pub use cause::{Cause, Rule};
pub use der_base::rules::Rules;
pub use element::Element;
pub use error::ElementError;
pub use fault::first_fault;
pub use inside::fault_inside;
pub use name::TypeName;
pub use path::{Path, Step};
pub use reason::Reason;
pub use walk::{MAX_DEPTH, Walk};
