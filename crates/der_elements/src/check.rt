//! Whether octets are elements of BER or DER and nothing else, and which ones. Nothing allocates.
mod element;
mod elements;
pub mod laws;
mod reader;
mod rules;
mod tape;

pub use element::{Element, Slot};
pub use elements::{Listed, are_elements, check_element, is_element, list_element, list_elements};
pub use rules::may_be_constructed;
