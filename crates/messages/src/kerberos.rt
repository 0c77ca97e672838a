//! Reads AS-REQ messages, the requests for a ticket (RFC 4120 5.4.1).
mod fields;
mod name;
mod request;

pub use name::Principal;
pub use request::{Request, read_request};
